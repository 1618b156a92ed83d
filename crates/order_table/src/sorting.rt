//! Rows in the order of their references.
ghost use Rattle.std.specs.Prelude.{◌≡◌, ◌<◌, IsTrue, map, nat_eq};
ghost use Rattle.std.specs.List.{AllPairs, IsDistinct};
ghost use Rattle.std.specs.List.Sorted.{IsPermutation};
ghost use Rattle.order_table.specs.Orders.{first_repeated};
ghost use Rattle.order_table.specs.RowsInOrder.{IsInOrder};

use base::earlier;
use row_types::OrderRow;
use std::alloc::Allocator;

/// Whether each reference is above those before it.
pub(crate) fn rises(rows: &[OrderRow]) -> bool
    ensures { IsTrue result → AllPairs (λ x y. x.order_no < y.order_no) rows.now }
{
    rows.is_sorted_by(|row, next| row.order_no < next.order_no)
}

/// Puts the rows in order: by their references, and those of one reference by their places. It takes no memory.
pub(crate) fn put_in_order<A: Allocator>(rows: &mut Vec<OrderRow, A>)
    ensures permutation { IsPermutation rows.old.items rows.new.items }
    ensures in_order { IsInOrder rows.new.items }
{
    rows.sort_unstable_by_key(|row: &OrderRow| (row.order_no, row.place));
}

/// Of rows in order, the one of least place that repeats a reference: each repeats that of the row before it.
pub(crate) fn first_repeated(rows: &[OrderRow]) -> Option<OrderRow>
    requires distinct { IsDistinct nat_eq (map (λ row. row.place) rows.now) }
    requires in_order { IsInOrder rows.now }
    ensures { result ≡ first_repeated rows.now }
{
    let mut repeated = None;
    for at in 1..rows.len() {
        if rows[at - 1].order_no == rows[at].order_no {
            repeated = earlier(repeated, Some(rows[at]), |row| row.place);
        }
    }
    repeated
}
