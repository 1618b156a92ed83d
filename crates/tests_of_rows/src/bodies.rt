//! The bodies of messages, byte by byte.
ghost use Rattle.std.specs.Prelude.{◌≡◌, false};
ghost use Rattle.itch_messages.specs.Body.{is_skipped};

use crate::rows::pass_if;
use itch_messages::{
    Add, Broken, Cross, Directory, Executed, ExecutedAt, Header, Message, Replace, Trade, append,
    one_body_each, read,
};
use std::alloc::Global;
use std::test::Fail;

const OPENING: u64 = 34_200_000_000_000;

const LATER: u64 = 34_201_000_000_005;

/// Whether the message is written as these bytes, and they are read as the message.
fn stands_for(alloc: Global, message: Message, body: &[u8]) -> bool
    requires { is_skipped message ≡ false }
{
    let mut out = Vec::new(alloc);
    append(&mut out, &message).is_ok() && out.as_slice() == body && read(body) == Ok(message)
}

/// Whether orders, with an attribution or without, and those that replace others stand for their bytes.
fn orders_stand(alloc: Global) -> bool {
    let add = Add {
        header: Header::of(7, 0, OPENING),
        order_no: 1,
        side: b'B',
        shares: 100,
        stock: *b"MSFT    ",
        price: 4_105_000,
        attribution: None,
    };
    let body = b"A\x00\x07\x00\x00\x1f\x1a\xce\xd9\xf0\x00\x00\x00\x00\x00\x00\x00\x00\x01B\
        \x00\x00\x00\x64MSFT    \x00\x3e\xa3\x28";
    let is_first = stands_for(alloc, Message::Add(add), body);
    let add = Add {
        header: Header::of(7, 0x0102, OPENING),
        order_no: 0x1122_3344_5566_7788,
        side: b'S',
        shares: 0x0001_0203,
        stock: *b"AAPL    ",
        price: 0xfffe_fdfc,
        attribution: Some(*b"NSDQ"),
    };
    let body = b"F\x00\x07\x01\x02\x1f\x1a\xce\xd9\xf0\x00\x11\x22\x33\x44\x55\x66\x77\x88S\
        \x00\x01\x02\x03AAPL    \xff\xfe\xfd\xfcNSDQ";
    let is_second = stands_for(alloc, Message::Add(add), body);
    let replace = Replace {
        header: Header::of(7, 0, OPENING),
        old_no: 1,
        new_no: 2,
        shares: 100,
        price: 4_115_000,
    };
    let body = b"U\x00\x07\x00\x00\x1f\x1a\xce\xd9\xf0\x00\x00\x00\x00\x00\x00\x00\x00\x01\
        \x00\x00\x00\x00\x00\x00\x00\x02\x00\x00\x00\x64\x00\x3e\xca\x38";
    is_first && is_second && stands_for(alloc, Message::Replace(replace), body)
}

#[test]
fn orders_stand_for_their_bytes(rt: HostRuntime) -> Result<(), Fail> {
    one_body_each();
    pass_if(orders_stand(rt.alloc()))
}

/// Whether executions and trades stand for their bytes.
fn trades_stand(alloc: Global) -> bool {
    let executed = Executed {
        header: Header::of(7, 0, LATER),
        order_no: 1,
        shares: 40,
        trade_no: 9,
    };
    let body = b"E\x00\x07\x00\x00\x1f\x1b\x0a\x74\xba\x05\x00\x00\x00\x00\x00\x00\x00\x01\
        \x00\x00\x00\x28\x00\x00\x00\x00\x00\x00\x00\x09";
    let is_first = stands_for(alloc, Message::Executed(executed), body);
    let executed = ExecutedAt {
        header: Header::of(0xffff, 1, LATER),
        order_no: 0x8000_0000_0000_0002,
        shares: 30,
        trade_no: 13,
        printable: b'Y',
        price: 4_104_000,
    };
    let body = b"C\xff\xff\x00\x01\x1f\x1b\x0a\x74\xba\x05\x80\x00\x00\x00\x00\x00\x00\x02\
        \x00\x00\x00\x1e\x00\x00\x00\x00\x00\x00\x00\x0dY\x00\x3e\x9f\x40";
    let is_second = stands_for(alloc, Message::ExecutedAt(executed), body);
    let trade = Trade {
        header: Header::of(7, 0, 281_474_976_710_655),
        order_no: 0,
        side: b'B',
        shares: 50,
        stock: *b"MSFT    ",
        price: 4_105_100,
        trade_no: 15,
    };
    let body = b"P\x00\x07\x00\x00\xff\xff\xff\xff\xff\xff\x00\x00\x00\x00\x00\x00\x00\x00B\
        \x00\x00\x00\x32MSFT    \x00\x3e\xa3\x8c\x00\x00\x00\x00\x00\x00\x00\x0f";
    is_first && is_second && stands_for(alloc, Message::Trade(trade), body)
}

#[test]
fn trades_stand_for_their_bytes(rt: HostRuntime) -> Result<(), Fail> {
    pass_if(trades_stand(rt.alloc()))
}

/// Whether crosses, breaks and rows of the directory stand for their bytes.
fn others_stand(alloc: Global) -> bool {
    let cross = Cross {
        header: Header::of(7, 0, LATER),
        shares: 5_000_000_000,
        stock: *b"MSFT    ",
        price: 4_105_000,
        trade_no: 17,
        cross_type: b'O',
    };
    let body = b"Q\x00\x07\x00\x00\x1f\x1b\x0a\x74\xba\x05\x00\x00\x00\x01\x2a\x05\xf2\x00\
        MSFT    \x00\x3e\xa3\x28\x00\x00\x00\x00\x00\x00\x00\x11O";
    let is_first = stands_for(alloc, Message::Cross(cross), body);
    let broken = Broken {
        header: Header::of(7, 0, OPENING),
        trade_no: 9,
    };
    let body = b"B\x00\x07\x00\x00\x1f\x1a\xce\xd9\xf0\x00\x00\x00\x00\x00\x00\x00\x00\x09";
    let is_second = stands_for(alloc, Message::Broken(broken), body);
    let directory = Directory {
        header: Header::of(7, 0, 0),
        stock: *b"MSFT    ",
        rest: [b' '; 20],
    };
    let body = b"R\x00\x07\x00\x00\x00\x00\x00\x00\x00\x00MSFT                        ";
    is_first && is_second && stands_for(alloc, Message::Directory(directory), body)
}

#[test]
fn other_types_stand_for_their_bytes(rt: HostRuntime) -> Result<(), Fail> {
    pass_if(others_stand(rt.alloc()))
}
