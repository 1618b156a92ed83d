//! Executions, and trades with their prices.

/// What an Order Executed message says (TotalView-ITCH 5.0, section 1.4.1).
///
/// It is priced by the order whose reference it has. Its fields are ordered from wide to narrow, so
/// that a row has 40 bytes, with no gap between two.
#[derive(Clone, Copy, PartialEq, Eq)]
pub struct Execution {
    /// Of the message, in bytes from the file's start.
    pub place: u64,
    /// In nanoseconds since midnight.
    pub time: u64,
    /// The order reference number.
    pub order_no: u64,
    /// The match number.
    pub trade_no: u64,
    pub shares: u32,
    /// Of the message's own header.
    pub locate: u16,
}

/// The type of the message that gave a trade.
#[derive(Clone, Copy, PartialEq, Eq)]
pub enum Kind {
    /// Order Executed (TotalView-ITCH 5.0, section 1.4.1).
    E,
    /// Order Executed With Price (section 1.4.2).
    C,
    /// Trade, against an order that isn't displayed (section 1.5.1).
    P,
    /// Cross Trade (section 1.5.2).
    Q,
}

/// A trade with its price, be it broken or of no shares, until `keep` of `probe` drops those.
#[derive(Clone, Copy, PartialEq, Eq)]
pub struct Sale {
    /// Of the message that gave it, in bytes from the file's start.
    pub place: u64,
    /// In nanoseconds since midnight.
    pub time: u64,
    /// Of the message's own header.
    pub locate: u16,
    pub kind: Kind,
    /// In ten-thousandths of a dollar.
    pub price: u32,
    pub shares: u64,
    /// The match number.
    pub trade_no: u64,
}

/// An execution whose order reference no message before it gave.
#[derive(Clone, Copy, PartialEq, Eq)]
pub struct Unknown {
    /// Of the execution, in bytes from the file's start.
    pub place: u64,
    /// The order reference number.
    pub order_no: u64,
}
