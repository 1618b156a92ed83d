//! A listing: sales by place.
ghost use Rattle.std.specs.Prelude.{◌≡◌, List, [], ◌++◌, nat_lt, IsOk, IfOk, OnOk, OnErr, All, ⊤};
ghost use Rattle.std.specs.List.Sorted.{IsPermutation};
ghost use Rattle.time_and_sales.specs.Ranges.{all_items};
ghost use Rattle.row_types.specs.SalesByPlace.{IsByPlace};
ghost use Rattle.time_and_sales.specs.Lent.{AreApart, all_sales};

use crate::OutOfMemory;
use crate::numbered::Numbered;
use itertools::{Itertools, MergePredicate};
use row_types::Sale;
use std::alloc::{Allocator, Global};
use std::marker::Model;

/// Sales in the order of their places.
#[derive(Drop)]
pub struct Listing<A: Allocator = Global> {
    sales: Vec<Sale, A>,
}

impl<A: Allocator> Model for Listing<A> {
    ghost use Rattle.std.specs.Prelude.{List};
    ghost use Rattle.row_types.specs.declared.trade.Sale.{Sale as TheSale};
    ghost use Rattle.row_types.specs.SalesByPlace.{IsByPlace};

    ghost Value = { List TheSale };

    ghost view = { λ listing. listing.sales.items };

    ghost invariant = { λ listing. IsByPlace listing.sales.items };
}

impl<A: Allocator> Listing<A> {
    /// A listing of no sales, in memory of `alloc`.
    pub fn empty(alloc: A) -> Listing<A>
        ensures { result ≡ [] }
    {
        Listing {
            sales: Vec::new(alloc),
        }
    }

    /// The listing of the sales, which are sorted in the vector that they come in; the fewer rising runs
    /// they come in, the faster.
    pub fn of_sales(mut sales: Vec<Sale, A>) -> Listing<A>
        requires { AreApart sales.items }
        ensures permutation { IsPermutation sales.items result }
        ensures by_place { IsByPlace result }
    {
        put_by_place(&mut sales);
        Listing { sales }
    }

    /// Takes in the sales of `other`. If there is no memory to merge the two, they are sorted in
    /// place. It is refused only if there is no memory for the sales of `other`, of which there are
    /// some, and then leaves the listing as it was.
    pub fn unite(&mut self, other: &Listing<A>) -> Result<(), OutOfMemory>
        requires { AreApart (self.old ++ other.now) }
        ensures permutation { OnOk result (IsPermutation (self.old ++ other.now) self.new) }
        ensures by_place { IsByPlace self.new }
        ensures unchanged { OnErr result (self.new ≡ self.old) }
        ensures none { other.now ≡ [] → IsOk result }
    {
        self.sales.extend_from_slice(other.items())?;
        put_by_place(&mut self.sales);
        Ok(())
    }

    /// The listing of the sales of all listings, in memory of `alloc`: one merge of all of them.
    pub fn merge_all(alloc: A, listings: Vec<Listing<A>, A>) -> Result<Listing<A>, OutOfMemory>
    where
        A: Clone,
        requires { AreApart (all_sales listings.items) }
        ensures permutation { IfOk result (λ all. IsPermutation (all_sales listings.items) all) }
        ensures by_place { IfOk result IsByPlace }
    {
        let mut parts = Vec::new(alloc.clone()?);
        for listing in listings {
            parts.push(listing.into_vec())?;
        }
        Ok(Listing {
            sales: merged(alloc, parts)?,
        })
    }

    /// The vector of the sales, by place.
    pub fn into_vec(self) -> Vec<Sale, A>
        ensures value { result.items ≡ self }
        ensures by_place { IsByPlace result.items }
    {
        let Listing { sales } = self;
        sales
    }

    /// The sales, by place.
    #[inline]
    pub fn items(&self) -> &[Sale]
        ensures value { result.now ≡ self.now }
        ensures by_place { IsByPlace result.now }
    {
        self.sales.as_slice()
    }
}

/// Puts sales in the order of their places. If there is memory for it, the rising runs that they
/// come in are merged; if not, they are sorted in place.
fn put_by_place<A: Allocator>(sales: &mut Vec<Sale, A>)
    requires { AreApart sales.old.items }
    ensures permutation { IsPermutation sales.old.items sales.new.items }
    ensures by_place { IsByPlace sales.new.items }
{
    if sales.sort_by_key(|sale| sale.place).is_err() {
        sales.sort_unstable_by_key(|sale| sale.place);
    }
}

/// The order of sales by place.
#[derive(Clone, Copy)]
pub struct ByPlace;

impl Numbered<Sale> for ByPlace {
    ghost number_of = { λ sale. sale.place };

    #[inline]
    fn number(sale: &Sale) -> u64 {
        sale.place
    }
}

impl MergePredicate<Sale> for ByPlace {
    ghost can_test = { λ _. ⊤ };

    ghost computes = { λ _ first. first ≡ (λ one other. nat_lt one.place other.place) };

    fn is_first(&mut self, left: &Sale, right: &Sale) -> bool {
        left.place < right.place
    }
}

/// The sales of all parts, merged by place.
fn merged<A: Allocator + Clone>(
    alloc: A,
    parts: Vec<Vec<Sale, A>, A>,
) -> Result<Vec<Sale, A>, OutOfMemory>
    requires by_place { All (λ part. IsByPlace part.items) parts.items }
    requires apart { AreApart (all_items parts.items) }
    ensures { IfOk result (λ all. IsPermutation (all_items parts.items) all.items × IsByPlace all.items) }
{
    let merge = parts.into_iter().kmerge_by(alloc.clone()?, ByPlace)?;
    merge.collect(alloc)
}
