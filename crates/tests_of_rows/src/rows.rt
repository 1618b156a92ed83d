//! Rows for the tests, and how a test says that it failed.
ghost use Rattle.std.specs.Prelude.{IfOk, IsTrue, map, nat_eq};
ghost use Rattle.std.specs.List.{IsDistinct};

use morsel_rows::{OrderList, OutOfMemory};
use order_table::OrderRow;
use probe::{Execution, Kind, Sale};
use std::alloc::{AllocError, Allocator, Global};
use std::test::Fail;
use time_and_sales::DirectoryRow;

/// The result of a test that passes if this holds. A test that only returns what a call says has few ways out, and so
/// little to prove.
pub(crate) fn pass_if(holds: bool) -> Result<(), Fail> {
    if holds {
        Ok(())
    } else {
        Err(Fail::from("something else came"))
    }
}

/// The same of what may be refused memory.
pub(crate) fn pass_told(holds: Result<bool, AllocError>) -> Result<(), Fail> {
    pass_if(holds?)
}

/// The result of a test that passes if so many rows of a table were right up to the first that wasn't.
pub(crate) fn pass_all(right: Result<usize, AllocError>, count: usize) -> Result<(), Fail> {
    let right = right?;
    if right == count {
        Ok(())
    } else {
        Err(Fail::from(right))
    }
}

/// A directory row that names a locate.
pub(crate) fn named_row(place: u64, locate: u16, stock: &[u8; 8]) -> DirectoryRow {
    DirectoryRow {
        place,
        locate,
        stock: *stock,
    }
}

/// An order of this reference at this place.
pub(crate) fn order(order_no: u64, place: u64) -> OrderRow {
    OrderRow {
        place,
        order_no,
        price: 5,
    }
}

/// A list of rows of these references, each at the place beside it.
pub(crate) fn list_of(alloc: Global, rows: &[(u64, u64)]) -> Result<OrderList, OutOfMemory> {
    let mut list = OrderList::new(alloc);
    for (order_no, place) in rows {
        list.push(order(*order_no, *place))?;
    }
    Ok(list)
}

/// Pushes `count` rows: the first of this reference and place, each further one by the steps behind the one before.
pub(crate) fn push_each<A: Allocator + Copy>(
    list: &mut OrderList<A>,
    count: u64,
    (order_no, place): (u64, u64),
    (order_step, place_step): (u64, u64),
) -> Result<(), OutOfMemory> {
    for number in 0..count {
        list.push(order(
            order_no.wrapping_add(number.wrapping_mul(order_step)),
            place.wrapping_add(number.wrapping_mul(place_step)),
        ))?;
    }
    Ok(())
}

/// Three rows of the reference 1, the first of them in the middle.
pub(crate) fn order_rows() -> [OrderRow; 3]
    ensures { IsDistinct nat_eq (map (λ row. row.place) result) }
{
    let row = |place, price| OrderRow {
        place,
        order_no: 1,
        price,
    };
    [row(38, 5), row(0, 4), row(71, 6)]
}

/// An execution of the reference 1, and one of a reference that no row gives.
pub(crate) fn executions() -> [Execution; 2]
    ensures { IsDistinct nat_eq (map (λ execution. execution.place) result) }
{
    let execution = |place, order_no| Execution {
        place,
        time: 5,
        locate: 7,
        order_no,
        shares: 0,
        trade_no: 9,
    };
    [execution(33, 1), execution(80, 2)]
}

/// A sale of the locate 7 at the price 4.
pub(crate) fn sale(trade_no: u64, shares: u64, kind: Kind, time: u64) -> Sale {
    Sale {
        place: 33,
        time,
        locate: 7,
        kind,
        price: 4,
        shares,
        trade_no,
    }
}

/// Whether each row stands behind those before it.
fn places_rise(rows: &[OrderRow]) -> bool
    ensures { IsTrue result → IsDistinct nat_eq (map (λ row. row.place) rows.now) }
{
    rows.is_sorted_by(|row, next| row.place < next.place)
}

/// Forty rows of the references 1 to 40, which rise by the factor 1, fall by 40, and do neither by 17.
pub(crate) fn forty_rows(alloc: Global, factor: u64) -> Result<Vec<OrderRow>, AllocError>
    ensures { IfOk result (λ rows. IsDistinct nat_eq (map (λ row. row.place) rows.items)) }
{
    let mut rows = Vec::new(alloc);
    for place in 0..40u64 {
        rows.push(OrderRow {
            place,
            order_no: (1 + place).wrapping_mul(factor) % 41,
            price: 5,
        })?;
    }
    if places_rise(rows.as_slice()) {
        Ok(rows)
    } else {
        Err(AllocError)
    }
}
