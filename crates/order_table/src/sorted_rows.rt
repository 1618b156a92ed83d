//! Rows by their references, and a search in them.
ghost use Rattle.std.specs.Prelude.{◌≡◌, ◌==◌};
ghost use Rattle.std.specs.List.{find};
ghost use Rattle.std.specs.List.Sorted.{IsNonDecreasingBy};

use crate::searching::{Near, Referenced, Spread, first_of};
use row_types::OrderRow;
use std::alloc::Allocator;
use std::marker::Model;

impl Referenced for OrderRow {
    ghost reference_of = { λ row. row.order_no };

    #[inline(always)]
    fn reference(&self) -> u64 {
        self.order_no
    }
}

/// Rows whose references don't fall.
#[derive(Drop)]
pub(crate) struct SortedRows<A: Allocator> {
    spread: Spread,
    rows: Vec<OrderRow, A>,
}

impl<A: Allocator> Model for SortedRows<A> {
    ghost use Rattle.std.specs.Prelude.{List};
    ghost use Rattle.std.specs.List.Sorted.{IsNonDecreasingBy};
    ghost use Rattle.row_types.specs.declared.order.OrderRow.{OrderRow as TheRow};

    ghost Value = { List TheRow };

    ghost view = { λ sorted. sorted.rows.items };

    ghost invariant = { λ sorted. IsNonDecreasingBy (λ row. row.order_no) sorted.rows.items };
}

impl<A: Allocator> SortedRows<A> {
    pub(crate) fn new(rows: Vec<OrderRow, A>) -> Self
        requires { IsNonDecreasingBy (λ row. row.order_no) rows.items }
        ensures { result ≡ rows.items }
    {
        let spread = match (rows.first(), rows.last()) {
            (Some(first), Some(last)) => Spread::of(rows.len(), first.order_no, last.order_no),
            _ => Spread::of(0, 0, 0),
        };
        SortedRows { spread, rows }
    }

    /// Where the reference is expected. No row is read.
    #[inline(always)]
    pub(crate) fn expect(&self, order_no: u64) -> Near {
        self.spread.expect(order_no)
    }

    /// The same, after a look at the rows there.
    #[inline(always)]
    pub(crate) fn look(&self, order_no: u64, near: Near) -> Near {
        near.look(&self.rows, order_no)
    }

    /// The first row that gives the reference, searched from where it is expected.
    #[inline(always)]
    pub(crate) fn first(&self, order_no: u64, near: Near) -> Option<OrderRow>
        ensures { result ≡ find (λ row. row.order_no == order_no) self.now }
    {
        first_of(&self.rows, self.spread, near, order_no).copied()
    }
}
