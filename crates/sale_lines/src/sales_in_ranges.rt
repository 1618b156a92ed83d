//! The lines of the sales of many listings, of a range of places.
ghost use Rattle.std.specs.Prelude.{◌≡◌, ℕ, ◌<◌, ◌≤◌, All, IfOk, List, filter, length, map, slice_index_or};
ghost use Rattle.std.specs.Iterator.Adapters.{copied_source};
ghost use Rattle.std.specs.List.Sorted.{IsNonDecreasingBy, IsPermutation};
ghost use Rattle.std.specs.Slice.Iter.{iter_rest};
ghost use Rattle.base.specs.declared.limits.TheConstants.{TIME_LIMIT};
ghost use Rattle.time_and_sales.specs.Ranges.{is_in_first};
ghost use Rattle.row_types.specs.declared.trade.Sale.{Sale};
ghost use Rattle.row_types.specs.SalesByPlace.{IsByPlace};
ghost use Rattle.time_and_sales.specs.Lent.{all_sales, lent};
ghost use Rattle.time_and_sales.specs.Names.{names_by};
ghost use Rattle.time_and_sales.specs.Texts.{lines_text};

use crate::made_names::write_named;
use base::OutOfMemory;
use itertools::Itertools;
use row_types::Sale;
use std::alloc::Global;
use std::iter::Copied;
use std::slice::Iter;
use time_and_sales::{ByPlace, Listing, Name, Names, within};

/// How many bytes most lines have at most.
const USUAL_LINE: usize = 48;

/// The sales of the longest listing.
pub(crate) fn longest<'a>(listings: &[&'a Listing]) -> &'a [Sale] {
    let sales = listings.iter().map(|listing| listing.items());
    sales.max_by_key(|sales| sales.len()).unwrap_or(&[])
}

/// The lines of the sales of all listings that are in the first range.
pub(crate) fn range_lines(
    alloc: Global,
    listings: &[&Listing],
    made: &[Name],
    names: &Names,
    bounds: &[u64],
) -> Result<Vec<u8>, OutOfMemory>
    requires made { (locate : ℕ) (other : List ℕ) → locate < length made.now →
        slice_index_or made.now locate other ≡ names_by names.now locate }
    requires times { All (λ sale. sale.time < TIME_LIMIT) (all_sales (lent listings.now)) }
    ensures { IfOk result (λ text. (all : List Sale) → IsByPlace all →
        IsPermutation (all_sales (lent listings.now)) all →
        text.items ≡ lines_text (names_by names.now)
        (filter (is_in_first (λ sale. sale.place) bounds.now) all)) }
{
    let parts = parts_of(alloc, listings, bounds)?;
    lines(alloc, parts, count_within(listings, bounds), made, names)
}

/// The sales of each listing that are in the first range. They stay in their listings.
#[tactic(auto, using(crate::proofs::SalesInRanges::loops))]
fn parts_of<'a>(
    alloc: Global,
    listings: &[&'a Listing],
    bounds: &[u64],
) -> Result<Vec<Copied<Iter<'a, Sale>>>, OutOfMemory>
    ensures sales { IfOk result (λ parts. map (λ part. iter_rest (copied_source part)) parts.items ≡
        map (filter (is_in_first (λ sale. sale.place) bounds.now)) (lent listings.now)) }
    ensures by_place { IfOk result (λ parts. All (λ part. IsByPlace (iter_rest (copied_source part))) parts.items) }
{
    let mut parts = Vec::with_capacity(alloc, listings.len())?;
    for listing in listings {
        let sales = within::<ByPlace, _>(listing.items(), bounds);
        parts.push(sales.iter().copied())?;
    }
    Ok(parts)
}

/// How many sales of all listings are in the first range, for room for them to be made.
#[tactic(auto, using(time_and_sales::proofs::SortedByPlace::places_rise))]
pub(crate) fn count_within(listings: &[&Listing], bounds: &[u64]) -> usize {
    let mut count = 0usize;
    for listing in listings {
        count = count.saturating_add(within::<ByPlace, _>(listing.items(), bounds).len());
    }
    count
}

/// The lines of the sales of all parts, by place, each under the name of its locate: one merge of the
/// parts, of which each sale is written as it comes. `count` is for room for the lines.
fn lines(
    alloc: Global,
    parts: Vec<Copied<Iter<Sale>>>,
    count: usize,
    made: &[Name],
    names: &Names,
) -> Result<Vec<u8>, OutOfMemory>
    requires made { (locate : ℕ) (other : List ℕ) → locate < length made.now →
        slice_index_or made.now locate other ≡ names_by names.now locate }
    requires by_place { All (λ part. IsByPlace (iter_rest (copied_source part))) parts.items }
    requires times { All (λ sale. sale.time < TIME_LIMIT)
        (all_sales (map (λ part. iter_rest (copied_source part)) parts.items)) }
    ensures { IfOk result (λ text. (sales : List Sale) × IsNonDecreasingBy (λ sale. sale.place) sales
        × IsPermutation (all_sales (map (λ part. iter_rest (copied_source part)) parts.entry.items)) sales
        × (text.items ≡ lines_text (names_by names.now) sales)) }
{
    let mut text = Vec::with_capacity(alloc, count.saturating_mul(USUAL_LINE))?;
    let merge = parts.into_iter().kmerge_by(alloc, ByPlace)?;
    for sale in merge {
        write_named(&mut text, &sale, made, names)?;
    }
    Ok(text)
}
