//! Broken trades, and the sales that are priced and kept.
use crate::room::{Came, needs_more};
use crate::rows::{executions, order_rows, pass_if, pass_told, sale};
use broken_trades::Breaks;
use linked_list_allocator::LocalHeap;
use probe::{
    Kind, Kinds, LocateList, Locates, OrderTable, Priced, Sale, Selection, Span, Unknown, keep,
    price_all, price_into,
};
use std::alloc::{AllocError, Allocator, Global};
use std::test::Fail;

/// Whether these are the sales of the first execution, and the second one's reference is the unknown one.
fn are_priced<A: Allocator>(priced: &Priced<A>, sales: &[Sale]) -> bool {
    let unknown = Unknown {
        place: 80,
        order_no: 2,
    };
    priced.sales.as_slice() == sales && priced.unknown == Some(unknown)
}

/// The sale of the first execution.
fn priced_sale() -> Sale {
    sale(9, 0, Kind::E, 5)
}

/// What comes of pricing the executions by the table.
fn priced_by(heap: &LocalHeap, table: &OrderTable) -> Came {
    match price_all(heap, table, &executions()) {
        Ok(priced) => Came::of(true, are_priced(&priced, &[priced_sale()])),
        Err(_) => Came::Refused,
    }
}

/// The same by a table that is made for it.
fn priced(alloc: Global, heap: &LocalHeap) -> Result<Came, AllocError> {
    let built = OrderTable::build(alloc, &order_rows())?;
    Ok(priced_by(heap, &built.table))
}

#[test]
fn executions_are_priced_once_there_is_room(rt: HostRuntime) -> Result<(), Fail> {
    needs_more(rt.alloc(), 16, priced)
}

/// What comes of pricing the executions once more.
fn priced_again_by(heap: &LocalHeap, table: &OrderTable) -> Result<Came, AllocError> {
    let mut priced = price_all(heap, table, &executions())?;
    let is_priced = price_into(&mut priced, table, &executions()).is_ok();
    let is_right = if is_priced {
        are_priced(&priced, &[priced_sale(), priced_sale()])
    } else {
        are_priced(&priced, &[priced_sale()])
    };
    Ok(Came::of(is_priced, is_right))
}

/// The same by a table that is made for it.
fn priced_again(alloc: Global, heap: &LocalHeap) -> Result<Came, AllocError> {
    let built = OrderTable::build(alloc, &order_rows())?;
    priced_again_by(heap, &built.table)
}

#[test]
fn pricing_that_is_refused_leaves_what_was_priced(rt: HostRuntime) -> Result<(), Fail> {
    needs_more(rt.alloc(), 0, priced_again)
}

/// Whether no executions are priced, and none is unknown.
#[tactic(auto, using(crate::proofs::Apart::no_places_apart))]
fn prices_none(alloc: Global, table: &OrderTable) -> bool {
    match price_all(alloc, table, &[]) {
        Ok(priced) => priced.sales.is_empty() && priced.unknown.is_none(),
        Err(_) => false,
    }
}

/// The same by a table of no orders, which repeat none.
#[tactic(auto, using(crate::proofs::Apart::no_places_apart))]
fn none_are_priced(alloc: Global) -> Result<bool, AllocError> {
    let built = OrderTable::build(alloc, &[])?;
    Ok(built.repeated.is_none() && prices_none(alloc, &built.table))
}

#[test]
fn no_executions_have_no_sales(rt: HostRuntime) -> Result<(), Fail> {
    pass_told(none_are_priced(rt.alloc()))
}

/// Keeps all sales whose number isn't that of a break, 9.
fn keep_unbroken(alloc: Global, sales: &mut Vec<Sale>) -> Result<(), AllocError> {
    let breaks = Breaks::from_rows([9].to_vec(alloc)?);
    keep(sales, &breaks, &Selection::all());
    Ok(())
}

/// Whether of a broken sale, an empty one and another this one is kept.
fn is_kept_alone(alloc: Global) -> Result<bool, AllocError> {
    let trade = sale(11, 7, Kind::P, 5);
    let mut sales = [sale(9, 5, Kind::P, 5), sale(10, 0, Kind::P, 5), trade].to_vec(alloc)?;
    let are_kept = keep_unbroken(alloc, &mut sales).is_ok();
    Ok(are_kept && sales.as_slice() == [trade].as_slice())
}

#[test]
fn broken_and_empty_sales_go(rt: HostRuntime) -> Result<(), Fail> {
    pass_told(is_kept_alone(rt.alloc()))
}

/// Times and kinds of sales, and whether they are asked for.
static ASKED_FOR: [(u64, Kind, bool); 5] = [
    (34_199_999_999_999, Kind::P, false),
    (34_200_000_000_000, Kind::P, true),
    (34_259_999_999_999, Kind::P, true),
    (34_260_000_000_000, Kind::P, false),
    (34_259_999_999_999, Kind::C, false),
];

/// Whether a selection asks for the sales at these times and of these kinds, and for no others.
fn admits_each(selection: &Selection) -> bool {
    for (time, kind, want) in &ASKED_FOR {
        if selection.admits(&sale(1, 1, *kind, *time)) != *want {
            return false;
        }
    }
    true
}

/// Whether a selection of some locates, times and kinds does.
fn admits_some(alloc: Global) -> Result<bool, AllocError> {
    let locates = LocateList::from_rows([8, 7, 8].to_vec(alloc)?);
    let selection = Selection {
        locates: Locates::Listed(locates),
        span: Some(Span {
            since: 34_200,
            until: 34_260,
        }),
        kinds: Kinds {
            e: true,
            c: false,
            p: true,
            q: true,
        },
    };
    Ok(admits_each(&selection))
}

#[test]
fn a_selection_admits(rt: HostRuntime) -> Result<(), Fail> {
    pass_told(admits_some(rt.alloc()))
}

/// Whether a list of a locate that is given twice has it once.
fn lists_once(alloc: Global) -> Result<bool, AllocError> {
    let locates = LocateList::from_rows([8, 7, 8].to_vec(alloc)?);
    Ok(locates.holds(8) && !locates.holds(6) && locates.items() == [7, 8].as_slice())
}

#[test]
fn a_list_of_locates_has_each_once(rt: HostRuntime) -> Result<(), Fail> {
    pass_told(lists_once(rt.alloc()))
}

/// The breaks of these numbers.
fn breaks_of<A: Allocator>(alloc: A, rows: &[u64]) -> Result<Breaks<A>, AllocError> {
    Ok(Breaks::from_rows(rows.to_vec(alloc)?))
}

/// Adds these numbers to breaks.
fn unite_rows<A: Allocator>(
    alloc: Global,
    breaks: &mut Breaks<A>,
    rows: &[u64],
) -> Result<(), AllocError> {
    let more = breaks_of(alloc, rows)?;
    breaks.unite(&more)
}

/// Whether two unions have each number once.
fn have_each_once(alloc: Global) -> bool {
    let mut breaks = Breaks::none(alloc);
    let is_first = unite_rows(alloc, &mut breaks, &[9, 3, 9]).is_ok()
        && breaks.items() == [3, 9].as_slice();
    let is_second = unite_rows(alloc, &mut breaks, &[9, 4, 4]).is_ok()
        && breaks.holds(9)
        && !breaks.holds(8);
    is_first && is_second && breaks.into_vec().as_slice() == [3, 4, 9].as_slice()
}

#[test]
fn united_breaks_have_each_number_once(rt: HostRuntime) -> Result<(), Fail> {
    pass_if(have_each_once(rt.alloc()))
}

/// Whether these are 3 and 9, and if they are united, more.
fn are_united(items: &[u64], is_united: bool) -> bool {
    if is_united {
        items == [3, 4, 5, 6, 9].as_slice()
    } else {
        items == [3, 9].as_slice()
    }
}

/// What comes of more breaks that are united with 3 and 9.
fn united(alloc: Global, heap: &LocalHeap) -> Result<Came, AllocError> {
    let mut breaks = breaks_of(heap, &[9, 3, 9])?;
    let is_united = unite_rows(alloc, &mut breaks, &[5, 4, 6]).is_ok();
    Ok(Came::of(is_united, are_united(breaks.items(), is_united)))
}

#[test]
fn a_refused_union_changes_nothing(rt: HostRuntime) -> Result<(), Fail> {
    needs_more(rt.alloc(), 0, united)
}
