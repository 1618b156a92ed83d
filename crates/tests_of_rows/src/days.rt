//! Reading a day from a source, what a source does where a call of its reader fails, and the bytes of days that several
//! tests use.
ghost use Rattle.std.specs.Prelude.{◌≡◌, false};

use crate::rows::{pass_all, pass_if, pass_told};
use day_file::{Counted, DayFile, DeviceFailed, LONGEST_FILE, ReadFault, Source, read_day};
use std::alloc::{AllocError, Global};
use std::test::Fail;
use tests_support::{BROKEN_EARLIER, Day, Interrupted, NAMED, Trickle};

/// Those of `NAMED`.
pub fn named(alloc: Global) -> Result<Vec<u8>, AllocError> {
    Ok(Day::of(alloc, &NAMED)?.bytes)
}

/// Those of `BROKEN_EARLIER`.
pub fn broken_earlier(alloc: Global) -> Result<Vec<u8>, AllocError> {
    Ok(Day::of(alloc, &BROKEN_EARLIER)?.bytes)
}

/// After how many calls a source fails, the limit, and how many bytes are read.
type Read = (u32, u64, Result<usize, ReadFault>);

static READS: [Read; 3] = [
    (9, 2, Ok(2)),
    (9, 1, Err(ReadFault::TooLong)),
    (0, 2, Err(ReadFault::ReadFailed)),
];

/// How many bytes were read.
fn length_of(read: Result<DayFile, ReadFault>) -> Result<usize, ReadFault> {
    Ok(read?.bytes().len())
}

/// Whether so many bytes are read of two, and a failure is told of if there was one. Want of memory is an error.
fn is_read(alloc: Global, (calls, limit, want): Read) -> Result<bool, AllocError> {
    let mut source = Trickle::of(&[0, 0], calls);
    let read = length_of(read_day(alloc, &mut source, limit.min(LONGEST_FILE)));
    let is_told = source.failed() == (read == Err(ReadFault::ReadFailed));
    if is_told && read == Err(ReadFault::OutOfMemory) {
        return Err(AllocError);
    }
    Ok(is_told && read == want)
}

/// How many rows of the table, up to the first that isn't, are right.
fn right_reads(alloc: Global) -> Result<usize, AllocError> {
    let mut right = 0usize;
    for read in &READS {
        if !is_read(alloc, *read)? {
            break;
        }
        right = right.saturating_add(1);
    }
    Ok(right)
}

/// Run also with each allocation of the process refused in turn.
#[test]
fn days_or_want_of_memory(rt: HostRuntime) -> Result<(), Fail> {
    pass_all(right_reads(rt.alloc()), 3)
}

/// Whether these 140,000 bytes are read by four calls: two full pieces of 65,536 bytes, and some bytes more.
fn is_read_in_pieces(alloc: Global, bytes: &[u8]) -> bool {
    let mut reader = Interrupted::of(bytes, 1_000_000, 9);
    let is_read = match read_day(alloc, &mut Counted::of(&mut reader), 140_000) {
        Ok(day) => day.bytes() == bytes,
        Err(_) => false,
    };
    is_read && reader.calls == 4
}

/// Whether 140,000 sevens are.
fn are_read_in_pieces(alloc: Global) -> Result<bool, AllocError> {
    Ok(is_read_in_pieces(alloc, &vec![in alloc; 7u8; 140_000]?))
}

#[test]
fn a_day_of_several_pieces_is_read(rt: HostRuntime) -> Result<(), Fail> {
    pass_told(are_read_in_pieces(rt.alloc()))
}

/// How many calls give a byte, up to the first that fails. None, if a call gives another number, or the source tells
/// of a failure before or not behind it.
fn calls_until_failure<S: Source>(source: &mut S) -> Option<u32> {
    for count in 0..9 {
        if source.failed() {
            return None;
        }
        match source.take(&mut [0; 4]) {
            Ok(1) => {}
            Ok(_) => return None,
            Err(DeviceFailed) => return source.failed().then_some(count),
        }
    }
    None
}

/// Whether the call behind so many fails, and is the last. Each call asks for more than the reader gives, and the
/// reader goes on behind its failure.
fn fails_once(interrupted: u32) -> bool {
    let mut reader = Interrupted::of(&[1, 2, 3, 4, 5], 1, interrupted);
    let count = calls_until_failure(&mut Counted::of(&mut reader));
    count == Some(interrupted) && reader.calls == interrupted.saturating_add(1)
}

#[test]
fn an_interruption_is_a_failure_and_is_not_tried_again() -> Result<(), Fail> {
    pass_if(fails_once(0) && fails_once(1) && fails_once(2) && fails_once(3))
}
