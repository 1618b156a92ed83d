//! Days that several crates are tested with.
use crate::Form;
use day_file::{DayFile, LONGEST_FILE};
use std::test::Fail;

/// A stock, padded with spaces.
pub const MSFT: [u8; 8] = *b"MSFT    ";

/// The frame of an order to add that lacks its last byte: 37 bytes.
pub const SHORT_ADD: &[u8] =
    b"\x00\x23A\x00\x07\x00\x00\x1f\x1a\xce\xd9\xf0\x00\x00\x00\x00\x00\x00\
    \x00\x00\x01B\x00\x00\x00\x64MSFT    \x00\x3e\xa3";

/// An order and its execution: 71 bytes.
pub const UNNAMED: [Form; 2] = [Form::A(1, 4_105_000), Form::E(1, 40, 9)];

/// The text of all sales of `UNNAMED`.
pub const UNNAMED_TEXT: &str =
    "time,symbol,kind,price,shares,number\n09:30:01.000000005,#7,E,410.5000,40,9\n";

/// A stock directory, an order for its stock, and an execution of that order: 112 bytes, whose
/// frames begin at 0, 41 and 79.
pub const NAMED: [Form; 3] = [Form::R(7, MSFT), Form::A(1, 4_105_000), Form::E(1, 40, 9)];

/// The text of all sales of `NAMED`.
pub const NAMED_TEXT: &str =
    "time,symbol,kind,price,shares,number\n09:30:01.000000005,MSFT,E,410.5000,40,9\n";

/// A sale that is broken by a message before it: 133 bytes, whose frames begin at 0, 41, 79 and 100.
pub const BROKEN_EARLIER: [Form; 4] = [
    Form::R(7, MSFT),
    Form::A(1, 4_105_000),
    Form::B(9),
    Form::E(1, 40, 9),
];

/// A stock directory, an order for its stock, an empty message, one of a type that is not read, and
/// at place 84 an order to add that lacks its last byte.
pub const WITH_A_SHORT_ADD: [Form; 4] = [
    Form::R(7, MSFT),
    Form::A(1, 4_105_000),
    Form::Bytes(b"\x00\x00\x00\x01Z"),
    Form::Bytes(SHORT_ADD),
];

/// The day file of these bytes, of which a test has at most `LONGEST_FILE`.
pub fn file_of(bytes: Vec<u8>) -> Result<DayFile, Fail> {
    if bytes.len() as u64 > LONGEST_FILE {
        return Err(Fail::from("the bytes of a test are too many"));
    }
    Ok(DayFile::of_bytes(bytes))
}
