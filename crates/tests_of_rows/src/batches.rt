//! Streams that are read and cut batch by batch.
ghost use Rattle.std.specs.Prelude.{◌≡◌, false};

use crate::days::named;
use crate::rows::pass_all;
use day_file::{Counted, LONGEST_FILE, OutOfMemory, Source};
use std::alloc::{AllocError, Global};
use std::test::Fail;
use streaming::{BatchReader, SourceFault};
use tests_support::{Interrupted, Trickle};

/// How a stream is read: its limit, the target, and the least bytes of a batch.
#[derive(Clone, Copy)]
struct Way {
    limit: u64,
    target: u64,
    batch: u64,
}

/// How many morsels, bytes and batches were read.
type Read = (u32, u64, u32);

/// Reads all batches of a source, and gives each back to the reader.
fn read_batches<S: Source>(alloc: Global, source: &mut S, way: Way) -> Result<Read, SourceFault> {
    let limit = way.limit.min(LONGEST_FILE);
    let mut reader = BatchReader::new(alloc, limit, way.target.max(1), way.batch);
    for number in 1..300_000u32 {
        if source.failed() {
            break;
        }
        let batch = reader.next_batch(source)?;
        if batch.is_last {
            let morsels = batch.first + batch.cut.count();
            return Ok((morsels, batch.start + batch.cut.length(), number));
        }
        reader.reuse(batch);
    }
    Err(SourceFault::ReadFailed)
}

/// The target, the least bytes of a batch, the most bytes of a call, and how many morsels and batches `NAMED` has. A
/// morsel is known to be full once a byte behind it comes.
type Batched = (u64, u64, usize, u32, u32);

static BATCHES: [Batched; 13] = [
    (1, 1, 1, 3, 3),
    (1, 1, 65_536, 3, 1),
    (1, 0, 1, 3, 113),
    (1, 38, 1, 3, 3),
    (1, 41, 1, 3, 2),
    (1, 42, 1, 3, 2),
    (1, 79, 7, 3, 2),
    (1, 80, 1, 3, 1),
    (42, 1, 1, 2, 2),
    (42, 79, 2, 2, 2),
    (42, 80, 2, 2, 1),
    (1_000, 1, 3, 1, 1),
    (1, u64::MAX, 1, 3, 1),
];

/// Whether these bytes are read so.
fn is_batched(alloc: Global, bytes: &[u8], batched: Batched) -> bool {
    let (target, batch, step, morsels, batches) = batched;
    let mut reader = Interrupted::of(bytes, step, u32::MAX);
    let way = Way {
        limit: 112,
        target,
        batch,
    };
    read_batches(alloc, &mut Counted::of(&mut reader), way) == Ok((morsels, 112, batches))
}

/// How many rows of the table, up to the first that isn't, are right.
fn right_batches(alloc: Global) -> Result<usize, OutOfMemory> {
    let bytes = named(alloc)?;
    let mut right = 0usize;
    for batched in &BATCHES {
        if !is_batched(alloc, &bytes, *batched) {
            break;
        }
        right = right.saturating_add(1);
    }
    Ok(right)
}

#[test]
fn a_batch_ends_once_it_has_its_least_bytes(rt: HostRuntime) -> Result<(), Fail> {
    pass_all(right_batches(rt.alloc()), 13)
}

/// How many zeros a stream has, the limit, how many bytes are read, the calls of the reader, and how many it keeps.
type Asked = (usize, u64, Result<u64, SourceFault>, u32, usize);

static ASKED: [Asked; 7] = [
    (72, 72, Ok(72), 2, 0),
    (72, 71, Err(SourceFault::TooLong), 1, 0),
    (72, 70, Err(SourceFault::TooLong), 1, 1),
    (72, 0, Err(SourceFault::TooLong), 1, 71),
    (0, 0, Ok(0), 1, 0),
    (140_000, 140_000, Ok(140_000), 4, 0),
    (140_000, 65_536, Err(SourceFault::TooLong), 2, 74_463),
];

/// Whether so much is asked for, by batches of at least `batch` bytes.
fn is_asked(alloc: Global, asked: Asked, batch: u64) -> Result<bool, OutOfMemory> {
    let (zeros, limit, want, calls, kept) = asked;
    let bytes = vec![in alloc; 0u8; zeros]?;
    let mut reader = Interrupted::of(&bytes, 1_000_000, u32::MAX);
    let way = Way {
        limit,
        target: 50,
        batch,
    };
    let read = length_of(read_batches(alloc, &mut Counted::of(&mut reader), way));
    Ok(read == want && reader.calls == calls && reader.rest.len() == kept)
}

/// How many bytes were read.
fn length_of(read: Result<Read, SourceFault>) -> Result<u64, SourceFault> {
    Ok(read?.1)
}

/// How many rows of the table, up to the first that isn't, are right.
fn right_asked(alloc: Global) -> Result<usize, OutOfMemory> {
    let mut right = 0usize;
    for asked in &ASKED {
        if !(is_asked(alloc, *asked, 100)? && is_asked(alloc, *asked, u64::MAX)?) {
            break;
        }
        right = right.saturating_add(1);
    }
    Ok(right)
}

#[test]
fn batches_ask_for_no_more_than_the_limit_and_a_byte(rt: HostRuntime) -> Result<(), Fail> {
    pass_all(right_asked(rt.alloc()), 7)
}

/// How many bytes of `NAMED` are read, by which target, and what comes of them.
type Told = (usize, u64, Result<Read, SourceFault>);

static TOLD: [Told; 3] = [
    (112, 1, Ok((3, 112, 3))),
    (112, 42, Ok((2, 112, 2))),
    (111, 1, Err(SourceFault::Truncated { place: 79 })),
];

/// Whether that comes of them. Want of memory is an error.
fn is_told(alloc: Global, (length, target, want): Told) -> Result<bool, OutOfMemory> {
    let mut bytes = named(alloc)?;
    bytes.truncate(length);
    let way = Way {
        limit: 1_000,
        target,
        batch: 1,
    };
    match read_batches(alloc, &mut Trickle::of(&bytes, 1_000), way) {
        Err(SourceFault::OutOfMemory) => Err(AllocError),
        read => Ok(read == want),
    }
}

/// How many rows of the table, up to the first that isn't, are right.
fn right_told(alloc: Global) -> Result<usize, OutOfMemory> {
    let mut right = 0usize;
    for told in &TOLD {
        if !is_told(alloc, *told)? {
            break;
        }
        right = right.saturating_add(1);
    }
    Ok(right)
}

/// Run also with each allocation of the process refused in turn.
#[test]
fn batches_or_want_of_memory(rt: HostRuntime) -> Result<(), Fail> {
    pass_all(right_told(rt.alloc()), 3)
}
