//! Order rows whose references rise, searched where they lie.
ghost use Rattle.std.specs.Prelude.{◌≡◌, ◌==◌, ◌<◌, ◌≤◌, All, length, map};
ghost use Rattle.std.specs.List.{AllPairs, find};
ghost use Rattle.order_list.specs.ShortRows.{IsOrigin, Rise, offset_of, row_of_lean};

use crate::lean::Lean;
use crate::offsets::Origin;
use order_table::{Near, Referenced, Spread, first_of};
use row_types::OrderRow;
use std::marker::Model;

impl Referenced for Lean {
    ghost reference_of = { offset_of };

    #[inline(always)]
    fn reference(&self) -> u64 {
        u64::from(self.offset())
    }
}

/// The rows of a list, one or more, each of a greater reference than the row before it. They are not copied.
#[derive(Drop)]
pub struct RisingRows<'a> {
    origin: Origin,
    spread: Spread,
    rows: &'a [Lean],
}

impl<'a> Model for RisingRows<'a> {
    ghost use Rattle.std.specs.Prelude.{List, ◌+◌, ◌^◌, ◌<◌, ◌≤◌, length, map};
    ghost use Rattle.row_types.specs.declared.order.OrderRow.{OrderRow};
    ghost use Rattle.order_list.specs.ShortRows.{IsOrigin, Rise, row_of_lean};

    ghost Value = { List OrderRow };

    ghost view = { λ rising. map (row_of_lean rising.origin) rising.rows.now };

    ghost invariant = { λ rising. IsOrigin rising.origin
        × (0 < length rising.rows.now)
        × Rise rising.rows.now };
}

impl<'a> RisingRows<'a> {
    /// The rows, of which there are some, and whose references rise.
    #[tactic(auto, using(crate::proofs::SearchedRows::rising_wide))]
    pub(crate) fn of(origin: Origin, rows: &'a [Lean]) -> Self
        requires origin { IsOrigin origin }
        requires some { 0 < length rows.now }
        requires rise { Rise rows.now }
        ensures rows { result ≡ map (row_of_lean origin) rows.now }
        ensures rise { AllPairs (λ x y. x.order_no < y.order_no) result }
    {
        let last = rows[rows.len() - 1].reference();
        let spread = Spread::of(rows.len(), rows[0].reference(), last);
        RisingRows {
            origin,
            spread,
            rows,
        }
    }

    /// The reference of the first row.
    pub fn least(&self) -> u64
        ensures { All (λ row. result ≤ row.order_no) self.now }
    {
        self.origin.order_no + u64::from(self.rows[0].offset())
    }

    /// The reference of the last row.
    pub fn greatest(&self) -> u64
        ensures some { 0 < length self.now }
        ensures greatest { All (λ row. row.order_no ≤ result) self.now }
    {
        self.origin.order_no + u64::from(self.rows[self.rows.len() - 1].offset())
    }

    /// Where the row that gives the reference is expected. No row is read.
    #[inline(always)]
    pub fn expect(&self, order_no: u64) -> Near {
        self.spread
            .expect(order_no.saturating_sub(self.origin.order_no))
    }

    /// The same, after a look at the rows there.
    #[inline(always)]
    pub fn look(&self, order_no: u64, near: Near) -> Near {
        near.look(self.rows, order_no.saturating_sub(self.origin.order_no))
    }

    /// The row that gives the reference, searched from where it is expected.
    #[inline(always)]
    pub fn first(&self, order_no: u64, near: Near) -> Option<OrderRow>
        ensures { result ≡ find (λ row. row.order_no == order_no) self.now }
    {
        if order_no < self.origin.order_no {
            return None;
        }
        let reference = order_no - self.origin.order_no;
        match first_of(self.rows, self.spread, near, reference) {
            Some(row) => Some(row.row(self.origin)),
            None => None,
        }
    }
}
