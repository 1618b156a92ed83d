//! Day files of tests, which are made of one form for each frame.
ghost use Rattle.std.specs.Prelude.{◌≡◌, IfSome, false};
ghost use Rattle.itch_messages.specs.Body.{is_skipped};

use crate::MSFT;
use base::OutOfMemory;
use day_file::append_frame;
use itch_messages::{
    Add, Broken, Cross, Directory, Executed, ExecutedAt, Header, Message, Replace, Trade, append,
};
use std::alloc::Global;

/// The time of orders and breaks, in nanoseconds since midnight.
const OPENING: u64 = 34_200_000_000_000;

/// The time of executions, trades and crosses, in nanoseconds since midnight.
const LATER: u64 = 34_201_000_000_005;

/// A frame: that of a message of the type that the letter names, or bytes as they stand in the file.
/// What a form leaves open is the same in each form of a letter: the locate is 7, the stock is
/// MSFT, an added order buys 100 shares, and the time is `OPENING` or `LATER`. Prices are in
/// ten-thousandths of a dollar.
#[derive(Clone, Copy)]
pub enum Form {
    /// A locate and its stock.
    R(u16, [u8; 8]),
    /// An order's reference and its price.
    A(u64, u32),
    /// An order's reference and its price.
    F(u64, u32),
    /// The old reference, the new one, and the price.
    U(u64, u64, u32),
    /// A match number.
    B(u64),
    /// An order's reference, shares and the match number.
    E(u64, u32, u64),
    /// An order's reference, shares, the match number, whether it is printable, and the price.
    C(u64, u32, u64, u8, u32),
    /// Shares, the price and the match number.
    P(u32, u32, u64),
    /// A trade's locate, the seconds of its time and the nanoseconds after them, shares, the price
    /// and the match number.
    T(u16, u16, u32, u32, u32, u64),
    /// Shares, the price and the match number.
    Q(u64, u32, u64),
    Bytes(&'static [u8]),
}

impl Form {
    /// The message of the form, if the form is not bytes.
    fn message(self) -> Option<Message>
        ensures { IfSome result (λ message. is_skipped message ≡ false) }
    {
        match self {
            Form::A(..) | Form::F(..) | Form::U(..) | Form::B(..) | Form::R(..) => self.order(),
            _ => self.sale(),
        }
    }

    /// Appends the form's frame.
    pub fn append_to(self, alloc: Global, out: &mut Vec<u8>) -> Result<(), OutOfMemory> {
        if let Form::Bytes(bytes) = self {
            return out.extend_from_slice(bytes);
        }
        let Some(message) = self.message() else {
            return Ok(());
        };
        let mut body = Vec::new(alloc);
        append(&mut body, &message)?;
        append_frame(out, &body)
    }

    fn order(self) -> Option<Message>
        ensures { IfSome result (λ message. is_skipped message ≡ false) }
    {
        let header = Header::of(7, 0, OPENING);
        match self {
            Form::R(locate, stock) => Some(Message::Directory(Directory {
                header: Header::of(locate, 0, 0),
                stock,
                rest: [b' '; 20],
            })),
            Form::A(order_no, price) => Some(Message::Add(added(header, order_no, price, None))),
            Form::F(order_no, price) => {
                let attribution = Some(*b"NSDQ");
                Some(Message::Add(added(header, order_no, price, attribution)))
            }
            Form::U(old_no, new_no, price) => Some(Message::Replace(Replace {
                header,
                old_no,
                new_no,
                shares: 100,
                price,
            })),
            Form::B(trade_no) => Some(Message::Broken(Broken { header, trade_no })),
            _ => None,
        }
    }

    fn sale(self) -> Option<Message>
        ensures { IfSome result (λ message. is_skipped message ≡ false) }
    {
        let header = Header::of(7, 0, LATER);
        match self {
            Form::E(order_no, shares, trade_no) => Some(Message::Executed(Executed {
                header,
                order_no,
                shares,
                trade_no,
            })),
            Form::C(order_no, shares, trade_no, printable, price) => {
                Some(Message::ExecutedAt(ExecutedAt {
                    header,
                    order_no,
                    shares,
                    trade_no,
                    printable,
                    price,
                }))
            }
            Form::P(shares, price, trade_no) => {
                Some(Message::Trade(traded(header, shares, price, trade_no)))
            }
            Form::T(locate, seconds, nanoseconds, shares, price, trade_no) => {
                let time = u64::from(seconds) * 1_000_000_000 + u64::from(nanoseconds);
                let header = Header::of(locate, 0, time);
                Some(Message::Trade(traded(header, shares, price, trade_no)))
            }
            Form::Q(shares, price, trade_no) => Some(Message::Cross(Cross {
                header,
                shares,
                stock: MSFT,
                price,
                trade_no,
                cross_type: b'O',
            })),
            _ => None,
        }
    }
}

/// The body of an added order.
fn added(header: Header, order_no: u64, price: u32, attribution: Option<[u8; 4]>) -> Add {
    Add {
        header,
        order_no,
        side: b'B',
        shares: 100,
        stock: MSFT,
        price,
        attribution,
    }
}

/// The body of a trade.
fn traded(header: Header, shares: u32, price: u32, trade_no: u64) -> Trade {
    Trade {
        header,
        order_no: 0,
        side: b'B',
        shares,
        stock: MSFT,
        price,
        trade_no,
    }
}

/// The bytes of a day file.
#[derive(Drop)]
pub struct Day {
    pub bytes: Vec<u8>,
}

impl Day {
    /// The day of these frames.
    pub fn of(alloc: Global, forms: &[Form]) -> Result<Day, OutOfMemory> {
        let mut bytes = Vec::new(alloc);
        for form in forms {
            form.append_to(alloc, &mut bytes)?;
        }
        Ok(Day { bytes })
    }
}
