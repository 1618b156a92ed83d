//! The messages that are read.
use crate::header::Header;

/// An order that is added to the book: 'A', or 'F' with the four bytes of its attribution. `side` is `B` or `S`, and
/// `price` is in ten-thousandths of a dollar. TotalView-ITCH 5.0, sections 1.3.1 and 1.3.2.
#[derive(Clone, Copy, PartialEq, Eq)]
pub struct Add {
    pub header: Header,
    pub order_no: u64,
    // Both numbers lie in one word of eight bytes. If the price shared one with the attribution, a copy of the
    // message would read it before it is written through, and wait.
    pub shares: u32,
    pub price: u32,
    pub side: u8,
    pub stock: [u8; 8],
    pub attribution: Option<[u8; 4]>,
}

/// An execution of a part or the whole of an order at its display price: 'E'. `trade_no` is the
/// match number. TotalView-ITCH 5.0, section 1.4.1.
#[derive(Clone, Copy, PartialEq, Eq)]
pub struct Executed {
    pub header: Header,
    pub order_no: u64,
    pub shares: u32,
    pub trade_no: u64,
}

/// An execution at a price of its own, in ten-thousandths of a dollar: 'C'. It counts in time and
/// sales and in volume if `printable` is `Y`. TotalView-ITCH 5.0, section 1.4.2.
#[derive(Clone, Copy, PartialEq, Eq)]
pub struct ExecutedAt {
    pub header: Header,
    pub order_no: u64,
    pub shares: u32,
    pub trade_no: u64,
    pub printable: u8,
    pub price: u32,
}

/// An order that another replaces: 'U'. `old_no` and `new_no` are the two order reference numbers, `shares` and `price`
/// (in ten-thousandths of a dollar) are the new order's. TotalView-ITCH 5.0, section 1.4.5.
#[derive(Clone, Copy, PartialEq, Eq)]
pub struct Replace {
    pub header: Header,
    pub old_no: u64,
    pub new_no: u64,
    pub shares: u32,
    pub price: u32,
}

/// A trade against an order that was not displayed: 'P'. `price` is in ten-thousandths of a dollar,
/// `trade_no` is the match number. TotalView-ITCH 5.0, section 1.5.1.
#[derive(Clone, Copy, PartialEq, Eq)]
pub struct Trade {
    pub header: Header,
    pub order_no: u64,
    pub side: u8,
    pub shares: u32,
    pub stock: [u8; 8],
    pub price: u32,
    pub trade_no: u64,
}

/// A cross: 'Q'. It has zero shares if no cross took place. `price` is in ten-thousandths of a
/// dollar, `trade_no` is the match number. TotalView-ITCH 5.0, section 1.5.2.
#[derive(Clone, Copy, PartialEq, Eq)]
pub struct Cross {
    pub header: Header,
    pub shares: u64,
    pub stock: [u8; 8],
    pub price: u32,
    pub trade_no: u64,
    pub cross_type: u8,
}

/// The break of the trade with this match number: 'B'. It is final. TotalView-ITCH 5.0, section
/// 1.5.3.
#[derive(Clone, Copy, PartialEq, Eq)]
pub struct Broken {
    pub header: Header,
    pub trade_no: u64,
}

/// The name of the header's locate: 'R'. What follows the stock is kept as bytes. TotalView-ITCH
/// 5.0, section 1.2.1.
#[derive(Clone, Copy, PartialEq, Eq)]
pub struct Directory {
    pub header: Header,
    pub stock: [u8; 8],
    pub rest: [u8; 20],
}

/// What a body is read as. `Skipped` is an empty body, or one of a type that is not read.
#[derive(Clone, Copy, PartialEq, Eq)]
pub enum Message {
    Add(Add),
    Executed(Executed),
    ExecutedAt(ExecutedAt),
    Replace(Replace),
    Trade(Trade),
    Cross(Cross),
    Broken(Broken),
    Directory(Directory),
    Skipped,
}
