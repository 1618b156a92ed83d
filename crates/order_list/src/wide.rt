//! Order rows in 20 bytes each.
ghost use Rattle.std.specs.Prelude.{◌≡◌};
ghost use Rattle.order_list.specs.ShortRows.{row_of_wide};

use crate::unaligned::Unaligned;
use row_types::OrderRow;

/// An order row in 20 bytes, with none between its numbers, whatever they are.
#[derive(Clone, Copy)]
pub(crate) struct Wide {
    pub(crate) place: Unaligned,
    pub(crate) order_no: Unaligned,
    pub(crate) price: u32,
}

impl Wide {
    #[inline(always)]
    pub(crate) fn of(row: OrderRow) -> Self
        ensures { row_of_wide result ≡ row }
    {
        Wide {
            place: Unaligned::of(row.place),
            order_no: Unaligned::of(row.order_no),
            price: row.price,
        }
    }

    /// The row with its numbers whole.
    #[inline(always)]
    pub(crate) fn row(self) -> OrderRow
        ensures { result ≡ row_of_wide self }
    {
        OrderRow {
            place: self.place.number(),
            order_no: self.order_no.number(),
            price: self.price,
        }
    }
}
