//! The row that a message gives.
ghost use Rattle.std.specs.Prelude.{◌≡◌, Some};
ghost use Rattle.day_rows.specs.DayRows.{AreStamped, IsStamped, rows_at, told};
ghost use Rattle.day_rows.specs.Messages.{sale_with};

use itch_messages::{Directory, ExecutedAt, Header, Message};
use row_types::{DirectoryRow, Execution, Kind, OrderRow, Sale};

/// The byte of an execution that is printable.
const PRINTABLE: u8 = b'Y';

/// What one message gives.
#[derive(Clone, Copy, PartialEq, Eq)]
pub enum Row {
    /// An order reference number that is given, with its price.
    Order(OrderRow),
    /// An execution that its order prices.
    Execution(Execution),
    /// A sale that has a price of its own: a printable execution with a price, a trade or a cross.
    Sale(Sale),
    /// The match number that a break names.
    Break(u64),
    /// A row of the stock directory.
    Directory(DirectoryRow),
}

/// The row that a message gives, whose frame is at this place, in bytes from the file's start. An
/// execution with a price that is not printable gives none, and what is skipped gives none.
#[inline(always)]
pub fn row_of(place: u64, message: &Message) -> Option<Row>
    ensures row { told result ≡ rows_at place message.now }
    ensures stamped { AreStamped (told result) }
{
    match message {
        Message::Add(add) => Some(order_row(place, add.order_no, add.price)),
        Message::Replace(replace) => Some(order_row(place, replace.new_no, replace.price)),
        Message::Executed(executed) => Some(execution_row(
            place,
            executed.header,
            executed.order_no,
            executed.shares,
            executed.trade_no,
        )),
        Message::ExecutedAt(executed) => executed_at_row(place, executed),
        Message::Trade(trade) => Some(sale_row(
            place,
            trade.header,
            Kind::P,
            trade.price,
            trade.shares.into(),
            trade.trade_no,
        )),
        Message::Cross(cross) => Some(sale_row(
            place,
            cross.header,
            Kind::Q,
            cross.price,
            cross.shares,
            cross.trade_no,
        )),
        Message::Broken(broken) => Some(Row::Break(broken.trade_no)),
        Message::Directory(directory) => Some(directory_row(place, directory)),
        Message::Skipped => None,
    }
}

/// An order reference and its price.
#[inline(always)]
fn order_row(place: u64, order_no: u64, price: u32) -> Row
    ensures { result ≡ Row.Order (record { place = place; order_no = order_no; price = price }) }
{
    Row::Order(OrderRow {
        place,
        order_no,
        price,
    })
}

/// The execution with this header, which its order prices.
#[inline(always)]
fn execution_row(place: u64, header: Header, order_no: u64, shares: u32, trade_no: u64) -> Row
    ensures row { result ≡ Row.Execution (record {
      place = place;
      time = header.time;
      locate = header.locate;
      order_no = order_no;
      shares = shares;
      trade_no = trade_no;
    }) }
    ensures stamped { IsStamped header.time header.locate }
{
    Row::Execution(Execution {
        place,
        time: header.time,
        locate: header.locate,
        order_no,
        shares,
        trade_no,
    })
}

/// An execution with a price, where it is printable.
#[inline(always)]
fn executed_at_row(place: u64, executed: &ExecutedAt) -> Option<Row>
    ensures row { told result ≡ rows_at place (Message.ExecutedAt executed.now) }
    ensures stamped { AreStamped (told result) }
{
    if executed.printable != PRINTABLE {
        return None;
    }
    Some(sale_row(
        place,
        executed.header,
        Kind::C,
        executed.price,
        executed.shares.into(),
        executed.trade_no,
    ))
}

/// A row of the stock directory.
#[inline(always)]
fn directory_row(place: u64, directory: &Directory) -> Row
    ensures row { told (Some result) ≡ rows_at place (Message.Directory directory.now) }
    ensures stamped { AreStamped (told (Some result)) }
{
    let header = directory.header;
    Row::Directory(DirectoryRow {
        place,
        locate: header.locate,
        stock: directory.stock,
    })
}

/// The sale with this header.
#[inline(always)]
fn sale_row(place: u64, header: Header, kind: Kind, price: u32, shares: u64, trade_no: u64) -> Row
    ensures row { result ≡ Row.Sale (sale_with place header kind price shares trade_no) }
    ensures stamped { IsStamped header.time header.locate }
{
    Row::Sale(Sale {
        place,
        time: header.time,
        locate: header.locate,
        kind,
        price,
        shares,
        trade_no,
    })
}
