//! Order rows, one after the other.
ghost use Rattle.std.specs.Iterator.{YieldsFirst, item_count};

use crate::lean::Lean;
use crate::offsets::Origin;
use crate::wide::Wide;
use row_types::OrderRow;
use std::marker::Model;

/// The rows of an `OrderList` that are left, in the order in which they were pushed. They are not copied.
#[derive(Drop)]
pub struct OrderRows<'a> {
    pub(crate) origin: Origin,
    pub(crate) lean: &'a [Lean],
    pub(crate) wide: &'a [Wide],
}

impl<'a> Model for OrderRows<'a> {
    ghost use Rattle.std.specs.Prelude.{List, ◌++◌, map};
    ghost use Rattle.row_types.specs.declared.order.OrderRow.{OrderRow};
    ghost use Rattle.order_list.specs.ShortRows.{IsOrigin, row_of_lean, row_of_wide};

    ghost Value = { List OrderRow };

    ghost view = { λ rows. map (row_of_lean rows.origin) rows.lean.now ++ map row_of_wide rows.wide.now };

    ghost invariant = { λ rows. IsOrigin rows.origin };
}

impl<'a> Iterator for OrderRows<'a> {
    type Item = OrderRow;

    ghost next_gives = { YieldsFirst (λ rows. rows) };

    ghost remaining = { item_count (λ rows. rows) };

    #[inline(always)]
    fn next(&mut self) -> Option<OrderRow> {
        if let Some((first, rest)) = self.lean.split_first() {
            self.lean = rest;
            return Some(first.row(self.origin));
        }
        let (first, rest) = self.wide.split_first()?;
        self.wide = rest;
        Some(first.row())
    }
}
