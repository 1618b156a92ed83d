//! Reading a body.
#![tactic(auto, unfolding(crate::specs::Body::message_of_kind))]

ghost use Rattle.std.specs.Prelude.{◌≡◌, ◌≤◌, ◌↔◌, Some, true, length, is_some, IsErr, IfErr, IfOk};
ghost use Rattle.itch_messages.specs.Body.{add_of, has_wrong_length, header_of, kind_of, length_fault_of, message_of, message_of_kind};
ghost use Rattle.itch_messages.specs.Layout.{length_of};

use crate::fields::{text_at, u8_at, u16_at, u32_at, u48_at, u64_at};
use crate::header::Header;
use crate::layout::{LengthFault, wanted_length};
use crate::message::{
    Add, Broken, Cross, Directory, Executed, ExecutedAt, Message, Replace, Trade,
};

/// The header of a body.
#[inline(always)]
#[tactic(auto, using(crate::proofs::FieldsOfBodies::fitting))]
fn header(body: &[u8]) -> Header
    requires { 11 ≤ length body.now }
    ensures { result ≡ header_of body.now }
{
    Header::of(u16_at(body, 1), u16_at(body, 3), u48_at(body, 5))
}

/// A body of type A or F.
#[inline(always)]
fn add(body: &[u8], attribution: Option<[u8; 4]>) -> Add
    requires { 36 ≤ length body.now }
    ensures { result ≡ add_of attribution body.now }
{
    Add {
        header: header(body),
        order_no: u64_at(body, 11),
        side: u8_at(body, 19),
        shares: u32_at(body, 20),
        stock: text_at(body, 24),
        price: u32_at(body, 32),
        attribution,
    }
}

/// A body of type E.
#[inline(always)]
fn executed(body: &[u8]) -> Executed
    requires { length body.now ≡ 31 }
    ensures { Message.Executed result ≡ message_of_kind 69 body.now }
{
    Executed {
        header: header(body),
        order_no: u64_at(body, 11),
        shares: u32_at(body, 19),
        trade_no: u64_at(body, 23),
    }
}

/// A body of type C.
#[inline(always)]
fn executed_at(body: &[u8]) -> ExecutedAt
    requires { length body.now ≡ 36 }
    ensures { Message.ExecutedAt result ≡ message_of_kind 67 body.now }
{
    ExecutedAt {
        header: header(body),
        order_no: u64_at(body, 11),
        shares: u32_at(body, 19),
        trade_no: u64_at(body, 23),
        printable: u8_at(body, 31),
        price: u32_at(body, 32),
    }
}

/// A body of type U.
#[inline(always)]
fn replace(body: &[u8]) -> Replace
    requires { length body.now ≡ 35 }
    ensures { Message.Replace result ≡ message_of_kind 85 body.now }
{
    Replace {
        header: header(body),
        old_no: u64_at(body, 11),
        new_no: u64_at(body, 19),
        shares: u32_at(body, 27),
        price: u32_at(body, 31),
    }
}

/// A body of type P.
#[inline(always)]
fn trade(body: &[u8]) -> Trade
    requires { length body.now ≡ 44 }
    ensures { Message.Trade result ≡ message_of_kind 80 body.now }
{
    Trade {
        header: header(body),
        order_no: u64_at(body, 11),
        side: u8_at(body, 19),
        shares: u32_at(body, 20),
        stock: text_at(body, 24),
        price: u32_at(body, 32),
        trade_no: u64_at(body, 36),
    }
}

/// A body of type Q.
#[inline(always)]
fn cross(body: &[u8]) -> Cross
    requires { length body.now ≡ 40 }
    ensures { Message.Cross result ≡ message_of_kind 81 body.now }
{
    Cross {
        header: header(body),
        shares: u64_at(body, 11),
        stock: text_at(body, 19),
        price: u32_at(body, 27),
        trade_no: u64_at(body, 31),
        cross_type: u8_at(body, 39),
    }
}

/// A body of type B.
#[inline(always)]
fn broken(body: &[u8]) -> Broken
    requires { length body.now ≡ 19 }
    ensures { Message.Broken result ≡ message_of_kind 66 body.now }
{
    Broken {
        header: header(body),
        trade_no: u64_at(body, 11),
    }
}

/// A body of type R.
#[inline(always)]
fn directory(body: &[u8]) -> Directory
    requires { length body.now ≡ 39 }
    ensures { Message.Directory result ≡ message_of_kind 82 body.now }
{
    Directory {
        header: header(body),
        stock: text_at(body, 11),
        rest: text_at(body, 19),
    }
}

/// The message of a body of this type, which has the type's length.
#[inline(always)]
#[tactic(auto, unfolding(crate::specs::Body::message_of_kind, crate::specs::Layout::length_of))]
fn message(kind: u8, body: &[u8]) -> Message
    requires { length_of kind ≡ Some (length body.now) }
    ensures { result ≡ message_of_kind kind body.now }
{
    match kind {
        b'A' => Message::Add(add(body, None)),
        b'F' => Message::Add(add(body, Some(text_at(body, 36)))),
        b'E' => Message::Executed(executed(body)),
        b'C' => Message::ExecutedAt(executed_at(body)),
        b'U' => Message::Replace(replace(body)),
        b'P' => Message::Trade(trade(body)),
        b'Q' => Message::Cross(cross(body)),
        b'B' => Message::Broken(broken(body)),
        b'R' => Message::Directory(directory(body)),
        _ => Message::Skipped,
    }
}

/// The type of a body, which is its first byte; 0, which is no type, of an empty one.
#[inline(always)]
pub fn kind_of(body: &[u8]) -> u8
    ensures { result ≡ kind_of body.now }
{
    if body.is_empty() {
        return 0;
    }
    body[0]
}

/// Whether a type is one of the nine that are read. A body of any other type is `Skipped`.
#[inline(always)]
pub fn is_read(kind: u8) -> bool
    ensures { result ≡ is_some (length_of kind) }
{
    wanted_length(kind).is_some()
}

/// The message that a body is, by the table of TotalView-ITCH 5.0, section 1. An empty body is
/// `Skipped`, and so is a body of another type, at any length. `LengthFault` comes if and only if
/// the first byte is one of the nine types and the length is not that type's. Side, cross type,
/// printable, attribution and what follows an R's stock are kept as they are and not tested.
#[inline(always)]
pub fn read(body: &[u8]) -> Result<Message, LengthFault>
    ensures fault { IsErr result ↔ (has_wrong_length body.now ≡ true) }
    ensures told { IfErr result (λ fault. fault ≡ length_fault_of body.now) }
    ensures message { IfOk result (λ message. message ≡ message_of body.now) }
{
    read_of_kind(kind_of(body), body)
}

/// The same of a body whose type is known. Where it is one of a few types that a caller tests first,
/// each has code of its own, with no further test of the type.
#[inline(always)]
pub fn read_of_kind(kind: u8, body: &[u8]) -> Result<Message, LengthFault>
    requires { kind ≡ kind_of body.now }
    ensures fault { IsErr result ↔ (has_wrong_length body.now ≡ true) }
    ensures told { IfErr result (λ fault. fault ≡ length_fault_of body.now) }
    ensures message { IfOk result (λ message. message ≡ message_of body.now) }
{
    let length = body.len();
    match wanted_length(kind) {
        None => Ok(Message::Skipped),
        Some(wanted) if wanted != length => Err(LengthFault {
            kind,
            length,
            wanted,
        }),
        Some(_) => Ok(message(kind, body)),
    }
}
