//! What one message says of an order reference.

/// An order reference and its price, as Add Order and Order Replace messages give them
/// (TotalView-ITCH 5.0, sections 1.3 and 1.4.5).
#[derive(Clone, Copy, PartialEq, Eq)]
pub struct OrderRow {
    /// The offset of the message's length prefix, in bytes from the file's start.
    pub place: u64,
    /// The order reference number that the message gives.
    pub order_no: u64,
    /// In ten-thousandths of a dollar.
    pub price: u32,
}
