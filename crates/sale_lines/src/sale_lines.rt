//! The lines of the sales of many listings, in parts that threads make while earlier parts are written.
ghost use Rattle.std.specs.Prelude.{◌≡◌, ◌<◌, All, IfOk, List, flat_map, length};
ghost use Rattle.std.specs.List.Sorted.{IsPermutation};
ghost use Rattle.base.specs.declared.limits.TheConstants.{TIME_LIMIT, TRADE_LIMIT};
ghost use Rattle.row_types.specs.SalesByPlace.{IsByPlace};
ghost use Rattle.time_and_sales.specs.Lent.{all_sales, lent};
ghost use Rattle.time_and_sales.specs.Names.{names_by};
ghost use Rattle.time_and_sales.specs.Texts.{lines_text};

use crate::made_names::made_names;
use crate::sales_in_ranges::{count_within, longest, range_lines};
use crate::sales_in_turn::{next_sale, put_sale};
use base::OutOfMemory;
use sinks::{Parts, Sink, WriteFailed};
use std::alloc::Global;
use std::marker::{Brand, Model, PhantomData};
use time_and_sales::{ByPlace, Listing, Name, Names, bounds_of, numbers_of};

/// About how many sales have their lines in one part. Their text has some 400 KB: so much that few parts are claimed,
/// and so little that the parts that wait to be written take little memory.
const SALES_OF_PART: usize = 8_192;

/// The most parts, since `Parts` has fewer than 2^24.
const MOST_PARTS: usize = 16_777_215;

/// A name for the list of the sales of all listings, by place. It is there for proofs alone: the proof of a call picks
/// the list.
pub trait AllSales: Send + Sync {
    ghost use Rattle.std.specs.Prelude.{List};
    ghost use Rattle.row_types.specs.declared.trade.Sale.{Sale};

    ghost sales: { List Sale };
}

impl AllSales for Brand {
    ghost use Rattle.std.specs.Prelude.{[]};

    ghost sales = { [] };
}

/// The lines of the sales of all listings, by place, in parts: each has the sales of a range of places. Contracts see
/// the texts of the parts. J names the sales.
#[derive(Drop)]
pub struct SaleLines<'a, J: AllSales> {
    listings: &'a [&'a Listing],
    names: &'a Names,
    made: Vec<Name>,
    bounds: Vec<u64>,
    list: PhantomData<J>,
}

impl<'a, J: AllSales> Model for SaleLines<'a, J> {
    ghost use Rattle.std.specs.Prelude.{ℕ, List};
    ghost use Rattle.time_and_sales.specs.Lent.{lent};
    ghost use Rattle.time_and_sales.specs.Names.{names_by};
    ghost use Rattle.sale_lines.specs.SaleParts.{AreParts, sale_texts};

    ghost Value = { List (List ℕ) };

    ghost view = { λ lines. sale_texts (names_by lines.names.now) J.sales lines.bounds.items };

    ghost invariant = { λ lines. AreParts (lent lines.listings.now) J.sales
        (names_by lines.names.now) lines.made.items lines.bounds.items };
}

impl<'a, J: AllSales> SaleLines<'a, J> {
    /// The lines in about one part for each 8,192 sales, or in a part for each thread, if those are more. It is refused
    /// if there is no memory for the bounds of the parts or for the names.
    pub fn new(
        alloc: Global,
        listings: &'a [&'a Listing],
        names: &'a Names,
        threads: u32,
    ) -> Result<Self, OutOfMemory>
        requires by_place { IsByPlace J.sales }
        requires all { IsPermutation (all_sales (lent listings.now)) J.sales }
        requires times { All (λ sale. sale.time < TIME_LIMIT) (all_sales (lent listings.now)) }
        requires few { length J.sales < TRADE_LIMIT }
        ensures { IfOk result (λ lines. flat_map (λ text. text) lines ≡ lines_text (names_by names.now) J.sales) }
    {
        let longest = longest(listings);
        // no place is below 0
        let count = count_within(listings, &[0]);
        let parts = (count / SALES_OF_PART).max(threads as usize);
        let places = numbers_of::<ByPlace, _>(alloc, longest, parts.min(MOST_PARTS) as u32)?;
        let bounds = bounds_of(alloc, places.as_slice())?;
        let made = made_names(alloc, names, longest.len())?;
        Ok(SaleLines {
            listings,
            names,
            made,
            bounds,
            list: PhantomData,
        })
    }
}

impl<'a, J: AllSales> Parts for SaleLines<'a, J> {
    ghost texts = { λ lines. lines };

    #[tactic(auto, using(crate::proofs::RangesJoined::length_texts))]
    fn count(&self) -> usize {
        self.bounds.len()
    }

    #[tactic(auto, using(crate::proofs::RangesJoined::length_texts))]
    fn make(&self, alloc: Global, part: usize) -> Result<Vec<u8>, OutOfMemory> {
        let made = self.made.as_slice();
        range_lines(alloc, self.listings, made, self.names, &self.bounds[part..])
    }

    #[tactic(auto, using(crate::proofs::RangesJoined::length_texts))]
    fn put<K: Sink>(&self, part: usize, sink: &mut K) -> Result<u64, WriteFailed> {
        let bounds = &self.bounds[part..];
        let mut written = 0;
        let mut last = None;
        while let Some(sale) = next_sale(self.listings, bounds, last) {
            match put_sale(sink, &sale, self.names) {
                Ok(count) => written += count,
                Err(refused) => return Err(WriteFailed {
                    written: written + refused.written,
                }),
            }
            last = Some(sale.place);
        }
        Ok(written)
    }
}
