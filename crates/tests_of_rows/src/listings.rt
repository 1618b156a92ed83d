//! Listings: merged by place, or refused and as they were, and their lines in parts.
ghost use Rattle.std.specs.Prelude.{◌≡◌, ◌<◌, ◌++◌, All, IfOk, [], ◌∷◌, length};
ghost use Rattle.std.specs.List.Sorted.{IsPermutation};
ghost use Rattle.base.specs.declared.limits.TheConstants.{TIME_LIMIT, TRADE_LIMIT};
ghost use Rattle.row_types.specs.SalesByPlace.{IsByPlace};
ghost use Rattle.time_and_sales.specs.Lent.{AreApart, all_sales, lent};

use crate::lines_of_bars::names;
use crate::parts::{Trial, pass};
use crate::room::{Came, needs_more};
use crate::rows::{pass_if, pass_told};
use linked_list_allocator::LocalHeap;
use probe::{Kind, Sale};
use sale_lines::{AllSales, SaleLines};
use sinks::Parts;
use std::alloc::{Allocator, Global};
use std::marker::Brand;
use std::sync::Wait;
use std::test::Fail;
use std::thread::Threads;
use time_and_sales::{Listing, OutOfMemory};

fn sale(place: u64, locate: u16) -> Sale
    ensures place { result.place ≡ place }
    ensures time { result.time < TIME_LIMIT }
{
    Sale {
        place,
        time: 34_201_000_000_005,
        locate,
        kind: Kind::E,
        price: 4_105_000,
        shares: 40,
        trade_no: 9,
    }
}

/// Two sales, and one whose place lies between theirs.
fn sales_apart() -> ([Sale; 2], [Sale; 1])
    ensures one { AreApart result.0 }
    ensures other { AreApart result.1 }
    ensures both { AreApart (result.0 ++ result.1) }
    ensures turned { AreApart (result.1 ++ result.0) }
    ensures times { All (λ sale. sale.time < TIME_LIMIT) (result.0 ++ result.1) }
{
    ([sale(133, 7), sale(41, 9)], [sale(87, 2)])
}

/// The listings of these.
fn listings<A: Allocator + Copy>(alloc: A) -> Result<(Listing<A>, Listing<A>), OutOfMemory>
    ensures both { IfOk result (λ two. AreApart (two.0 ++ two.1)) }
    ensures turned { IfOk result (λ two. AreApart (two.1 ++ two.0)) }
    ensures all { IfOk result (λ two. AreApart (all_sales (two.0 ∷ two.1 ∷ []))) }
    ensures times { IfOk result (λ two. All (λ sale. sale.time < TIME_LIMIT) (all_sales (two.0 ∷ two.1 ∷ []))) }
{
    let (one, other) = sales_apart();
    let one = Listing::of_sales(Vec::from_slice(alloc, &one)?);
    let other = Listing::of_sales(Vec::from_slice(alloc, &other)?);
    Ok((one, other))
}

/// Whether these are the two sales, and if they are merged, the third between them.
fn are_sales(items: &[Sale], are_merged: bool) -> bool {
    if are_merged {
        items == [sale(41, 9), sale(87, 2), sale(133, 7)].as_slice()
    } else {
        items == [sale(41, 9), sale(133, 7)].as_slice()
    }
}

/// What comes of a listing that takes in another.
fn united(_: Global, heap: &LocalHeap) -> Result<Came, OutOfMemory> {
    let (mut one, other) = listings(heap)?;
    let is_united = one.unite(&other).is_ok();
    Ok(Came::of(is_united, are_sales(one.items(), is_united)))
}

#[test]
fn listings_take_in_others_or_stay(rt: HostRuntime) -> Result<(), Fail> {
    needs_more(rt.alloc(), 0, united)
}

/// Whether the second listing takes in the first.
fn is_united_turned(alloc: Global) -> Result<bool, OutOfMemory> {
    let (one, mut other) = listings(alloc)?;
    let is_united = other.unite(&one).is_ok();
    Ok(is_united && are_sales(other.items(), true) && other.into_vec().len() == 3)
}

#[test]
fn either_listing_takes_in_the_other(rt: HostRuntime) -> Result<(), Fail> {
    pass_told(is_united_turned(rt.alloc()))
}

/// Whether an empty listing has no sales.
fn is_empty(alloc: Global) -> bool {
    Listing::empty(alloc).items().is_empty()
}

#[test]
fn an_empty_listing_has_no_sales(rt: HostRuntime) -> Result<(), Fail> {
    pass_if(is_empty(rt.alloc()))
}

/// What comes of merging the two.
fn merged(_: Global, heap: &LocalHeap) -> Result<Came, OutOfMemory> {
    let (one, other) = listings(heap)?;
    let both = vec![in heap; one, other]?;
    Ok(match Listing::merge_all(heap, both) {
        Ok(all) => Came::of(true, are_sales(all.items(), true)),
        Err(_) => Came::Refused,
    })
}

#[test]
fn many_listings_are_merged_or_refused(rt: HostRuntime) -> Result<(), Fail> {
    needs_more(rt.alloc(), 0, merged)
}

/// Whether no listings, merged, have no sales.
#[tactic(auto, using(crate::proofs::Apart::no_places_apart))]
fn none_are_empty(alloc: Global) -> Result<bool, OutOfMemory> {
    Ok(
        Listing::merge_all(alloc, Vec::new(alloc))?
            .items()
            .is_empty(),
    )
}

#[test]
fn no_listings_have_no_sales(rt: HostRuntime) -> Result<(), Fail> {
    pass_told(none_are_empty(rt.alloc()))
}

const LINES: &str = "header
09:30:01.000000005,#9,E,410.5000,40,9
09:30:01.000000005,ZVZZT,E,410.5000,40,9
09:30:01.000000005,MSFT,E,410.5000,40,9
";

/// Whether the lines of listings are in a part for each thread, and pass a trial. The proof of a call names the sales:
/// they are those of `all`.
fn lines_pass<J: AllSales, R: Threads + Wait + Sync>(
    rt: &R,
    alloc: Global,
    listings: &[&Listing],
    all: &Listing,
    threads: u32,
    trial: Trial,
) -> Result<bool, OutOfMemory>
    requires by_place { IsByPlace J.sales }
    requires all { IsPermutation (all_sales (lent listings.now)) J.sales }
    requires times { All (λ sale. sale.time < TIME_LIMIT) (all_sales (lent listings.now)) }
    requires few { length J.sales < TRADE_LIMIT }
{
    let names = names(alloc)?;
    let lines = SaleLines::<J>::new(alloc, listings, &names, threads)?;
    let are_even = lines.count() == threads as usize && all.items().len() == 3;
    Ok(are_even && pass(rt, alloc, &lines, LINES.as_bytes(), trial)?)
}

/// The same of the two.
fn both_pass<R: Threads + Wait + Sync>(
    rt: &R,
    alloc: Global,
    threads: u32,
    trial: Trial,
) -> Result<bool, OutOfMemory> {
    let (one, other) = listings(alloc)?;
    let mut sales = Vec::from_slice(alloc, one.items())?;
    sales.extend_from_slice(other.items())?;
    let all = Listing::of_sales(sales);
    if all.items().len() > 3 {
        return Ok(false);
    }
    lines_pass::<Brand, R>(rt, alloc, &[&one, &other], &all, threads, trial)
}

/// The same of each of these numbers of threads.
fn pass_by_each<R: Threads + Wait + Sync>(
    rt: &R,
    alloc: Global,
    numbers: &[u32],
    trial: Trial,
) -> Result<bool, OutOfMemory> {
    for threads in numbers {
        if !both_pass(rt, alloc, *threads, trial)? {
            return Ok(false);
        }
    }
    Ok(true)
}

#[test]
fn lines_of_sales_in_parts_are_those_of_one_listing(rt: HostRuntime) -> Result<(), Fail> {
    pass_told(pass_by_each(&rt, rt.alloc(), &[1, 2, 3, 5, 100], Trial::Whole))
}

#[test]
fn a_part_of_sales_is_written_slowly_as_it_is_made(rt: HostRuntime) -> Result<(), Fail> {
    pass_told(pass_by_each(&rt, rt.alloc(), &[1, 2, 3, 5], Trial::Slow))
}

#[test]
fn a_sink_without_room_has_the_first_lines_of_sales(rt: HostRuntime) -> Result<(), Fail> {
    pass_told(pass_by_each(&rt, rt.alloc(), &[1, 3], Trial::Short))
}

/// Once there are lines, their text is whole, whatever is refused. Run also with each allocation and each thread of the
/// process refused in turn.
#[test]
fn lines_or_want_of_memory(rt: HostRuntime) -> Result<(), Fail> {
    pass_told(pass_by_each(&rt, rt.alloc(), &[1, 3], Trial::Free))
}
