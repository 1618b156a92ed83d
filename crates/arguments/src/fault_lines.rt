//! What is reported of a fault: its line, put together in a fixed place, and its status.
ghost use Rattle.std.specs.Prelude.{◌≡◌, ◌+◌, ◌≤◌, ◌++◌, codes, length};
ghost use Rattle.std.specs.Fmt.{decimal};
ghost use Rattle.arrayvec.specs.ArrayVec.{array_vec_len};
ghost use Rattle.arguments.specs.FaultLines.{day_fault_text, line_of, query_fault_text, report_of, status_of};

use arrayvec::ArrayVec;
use base::limits::MOST_MORSELS;
use itoa::Buffer;
use outcomes::{DayFault, QueryFault, RunFault};

/// Room for the longest line, which has 103 bytes: that of a wrong length whose three numbers have 20 digits each.
pub(crate) type Line = ArrayVec<u8, 103>;

pub(crate) fn status_of(fault: &RunFault) -> u8
    ensures { result ≡ status_of fault.now }
{
    match fault {
        RunFault::Query(_) | RunFault::TooManyMorsels => 2,
        RunFault::ReadFailed => 4,
        RunFault::TooLong { .. } | RunFault::Day(_) => 1,
        RunFault::WriteFailed { .. } => 5,
        RunFault::OutOfMemory => 3,
    }
}

/// A fault's line, with its line feed.
pub(crate) fn line_of(fault: &RunFault) -> Line
    ensures { result.items ≡ line_of fault.now }
{
    let mut line = Line::new();
    push_text(&mut line, b"fault: ");
    push_fault(&mut line, fault);
    line.push(b'\n');
    line
}

fn push_fault(line: &mut Line, fault: &RunFault)
    requires { array_vec_len line.old ≤ 7 }
    ensures items { line.new.items ≡ line.old.items ++ (report_of fault.now).1 }
    ensures len { array_vec_len line.new ≤ 102 }
{
    match fault {
        RunFault::Query(fault) => push_query_fault(line, fault),
        RunFault::ReadFailed => push_text(line, b"reading failed"),
        RunFault::TooLong { limit } => {
            push_number(line, b"file is longer than ", *limit, b" bytes");
        }
        RunFault::TooManyMorsels => {
            push_number(line, b"more than ", u64::from(MOST_MORSELS), b" morsels");
        }
        RunFault::Day(fault) => push_day_fault(line, fault),
        RunFault::WriteFailed { written } => {
            push_number(line, b"writing failed after ", *written, b" bytes");
        }
        RunFault::OutOfMemory => push_text(line, b"out of memory"),
    }
}

fn push_query_fault(line: &mut Line, fault: &QueryFault)
    requires { array_vec_len line.old ≤ 7 }
    ensures items { line.new.items ≡ line.old.items ++ query_fault_text fault.now }
    ensures len { array_vec_len line.new ≤ 102 }
{
    match fault {
        QueryFault::UnknownWord { at } => push_at(line, *at, b": unknown word"),
        QueryFault::BadNumber { at } => push_at(line, *at, b": bad number"),
        QueryFault::BadTime { at } => push_at(line, *at, b": bad time"),
        QueryFault::Repeated { at } => push_at(line, *at, b": condition given twice"),
        QueryFault::Incomplete => push_text(line, b"query ends too early"),
        QueryFault::EmptyRange => push_text(line, b"query has an empty time range"),
        QueryFault::OutOfMemory => push_text(line, b"out of memory"),
    }
}

fn push_day_fault(line: &mut Line, fault: &DayFault)
    requires { array_vec_len line.old ≤ 7 }
    ensures items { line.new.items ≡ line.old.items ++ day_fault_text fault.now }
    ensures len { array_vec_len line.new ≤ 102 }
{
    match fault {
        DayFault::Truncated { place } => {
            push_number(line, b"place ", *place, b": message runs past the end");
        }
        DayFault::WrongLength {
            place,
            kind,
            length,
            wanted,
        } => {
            push_number(line, b"place ", *place, b": message ");
            line.push(*kind);
            push_number(line, b" has length ", *length as u64, b", not ");
            push_decimal(line, *wanted as u64);
        }
        DayFault::RepeatedReference { place, order_no } => {
            push_number(line, b"place ", *place, b": order reference ");
            push_decimal(line, *order_no);
            push_text(line, b" was given before");
        }
        DayFault::UnknownReference { place, order_no } => {
            push_number(line, b"place ", *place, b": order reference ");
            push_decimal(line, *order_no);
            push_text(line, b" is not known");
        }
    }
}

/// A byte of the query's text and what is wrong there.
fn push_at(line: &mut Line, at: usize, wrong: &[u8])
    requires { array_vec_len line.old + 11 + 20 + length wrong.now ≤ 103 }
    ensures items { line.new.items ≡ line.old.items ++ codes "query byte " ++ decimal at ++ wrong.now }
    ensures len { array_vec_len line.new ≤ array_vec_len line.old + 11 + 20 + length wrong.now }
{
    push_number(line, b"query byte ", at as u64, wrong);
}

fn push_number(line: &mut Line, before: &[u8], number: u64, after: &[u8])
    requires { array_vec_len line.old + length before.now + 20 + length after.now ≤ 103 }
    ensures items { line.new.items ≡ line.old.items ++ before.now ++ decimal number ++ after.now }
    ensures len { array_vec_len line.new ≤ array_vec_len line.old + length before.now + 20 + length after.now }
{
    push_text(line, before);
    push_decimal(line, number);
    push_text(line, after);
}

fn push_decimal(line: &mut Line, number: u64)
    requires { array_vec_len line.old + 20 ≤ 103 }
    ensures items { line.new.items ≡ line.old.items ++ decimal number }
    ensures len { array_vec_len line.new ≤ array_vec_len line.old + 20 }
{
    push_text(line, Buffer::new().format(number).as_bytes());
}

fn push_text(line: &mut Line, text: &[u8])
    requires { array_vec_len line.old + length text.now ≤ 103 }
    ensures items { line.new.items ≡ line.old.items ++ text.now }
    ensures len { array_vec_len line.new ≡ array_vec_len line.old + length text.now }
{
    line.try_extend_from_slice(text).unwrap();
}
