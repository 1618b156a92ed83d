//! What prices executions.
ghost use Rattle.std.specs.Prelude.{◌≡◌, List};
ghost use Rattle.order_table.specs.Orders.{OrderRow as TheRow, price_before};

use crate::searching::Near;

/// Where the row of a reference is expected. Only the speed of a search hangs on it.
#[derive(Clone, Copy)]
pub struct Expected {
    /// The list of rows, of several.
    pub list: usize,
    /// In that list.
    pub near: Near,
}

/// What gives an execution the price of the first row of its order reference, wherever the rows are kept.
pub trait PricesExecutions {
    /// It prices by these rows.
    ghost PricesBy: { List TheRow → Self → Type 0 };

    /// Where the row of the reference is expected. No row is read, so that this is quick for many references.
    fn expect(&self, order_no: u64) -> Expected;

    /// The same, after a look at the rows there.
    fn look(&self, order_no: u64, expected: Expected) -> Expected;

    /// The price of an execution of the reference at the place: that of the reference's first row, wherever it was
    /// expected, if that row stands before the place. In ten-thousandths of a dollar.
    fn price_before(&self, order_no: u64, place: u64, expected: Expected) -> Option<u32>
        ensures { (rows : List TheRow) → PricesBy rows self.now
            → result ≡ price_before rows order_no place };
}
