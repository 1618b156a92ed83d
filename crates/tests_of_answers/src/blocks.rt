//! Days that are read at places, by several threads at once.
ghost use Rattle.std.specs.Prelude.{◌≡◌, ◌≤◌, length};

use crate::answering::{HEADER, settings_of};
use executor::{
    BlockSource, CountedSink, DeviceFailed, Division, FileBlocks, FreeGate, Gate, OutOfMemory,
    QueryFault, ReadsAt, RunFault, answer_blocks, parse, run_blocks,
};
use std::alloc::Global;
use std::sync::atomic::{AtomicBool, AtomicU64, Ordering};
use std::sync::{Arc, Wait};
use std::test::Fail;
use std::thread::Threads;
use tests_support::{BROKEN_EARLIER, Day, Form, UNNAMED, UNNAMED_TEXT, hold, in_memory};

/// What `run_blocks` gives with `workers` workers, and whether it wrote this text, or nothing if there is a fault.
fn told_by_blocks<R: Threads + Wait + Sync, S: BlockSource + Send + Sync>(
    rt: &R,
    alloc: Global,
    source: S,
    length: u64,
    query: &str,
    limit: u32,
    workers: u32,
    text: &str,
) -> (Result<(), RunFault>, bool) {
    let mut written = Vec::new(alloc);
    let mut sink = CountedSink::of(&mut written);
    let settings = settings_of(workers, 1, limit);
    let told = run_blocks(rt, alloc, source, length, query, settings, &mut sink);
    let want = if told.is_ok() { text } else { "" };
    (told, written.as_slice() == want.as_bytes())
}

/// A file that gives two bytes a call of a day, and fails from a place on up to another one.
#[derive(Drop)]
struct Frail<'a> {
    bytes: &'a [u8],
    fails_from: u64,
    fails_to: u64,
}

impl<'a> ReadsAt for Frail<'a> {
    fn get(&self, place: u64, into: &mut [u8]) -> Result<usize, DeviceFailed> {
        if (self.fails_from..self.fails_to).contains(&place) {
            return Err(DeviceFailed);
        }
        let most = into.len().min(2);
        Ok(copied(self.bytes, place, &mut into[..most]))
    }

    fn is_same(&self, _other: &Self) -> bool {
        true
    }
}

/// Copies what stands at a place, and says how many bytes that is.
fn copied(bytes: &[u8], place: u64, into: &mut [u8]) -> usize
    ensures len { length into.new ≡ length into.old }
    ensures count { result ≤ length into.new }
{
    let rest = bytes.get(place as usize..).unwrap_or(&[]);
    let count = rest.len().min(into.len());
    into[..count].copy_from_slice(&rest[..count]);
    count
}

/// What is told of a file that is too long.
const TOO_LONG: Result<(), RunFault> = Err(RunFault::TooLong { limit: 70 });

/// What is told where the device fails.
const FAILED: Result<(), RunFault> = Err(RunFault::ReadFailed);

/// What is told of a query that begins with no word.
const UNKNOWN: Result<(), RunFault> = Err(RunFault::Query(QueryFault::UnknownWord { at: 0 }));

/// The limit, between which places the device fails, the query, and what is told of 71 bytes. One that is too
/// long is refused before anything else of it is read.
type FrailRow = (u32, u64, u64, &'static str, Result<(), RunFault>);

const FRAIL: [FrailRow; 8] = [
    (71, 0, 0, "sales", Ok(())),
    (70, 0, 0, "sales", TOO_LONG),
    (70, 0, 70, "sales", TOO_LONG),
    (71, 72, u64::MAX, "sales", Ok(())),
    (71, 71, u64::MAX, "sales", FAILED),
    (71, 70, u64::MAX, "sales", FAILED),
    (71, 0, u64::MAX, "sales", FAILED),
    (71, 0, u64::MAX, "sale", UNKNOWN),
];

/// Whether this is told of such a device, and its sink has a whole text or nothing.
fn is_told_of_frail<R: Threads + Wait + Sync>(
    rt: &R,
    alloc: Global,
    bytes: &[u8],
    row: &FrailRow,
) -> bool {
    let (limit, fails_from, fails_to, query, want) = row;
    let source = FileBlocks::of(Frail {
        bytes,
        fails_from: *fails_from,
        fails_to: *fails_to,
    });
    told_by_blocks(rt, alloc, source, 71, query, *limit, 3, UNNAMED_TEXT) == (*want, true)
}

#[test]
fn a_device_that_fails_or_is_too_long_leaves_the_sink_alone(rt: HostRuntime) -> Result<(), Fail> {
    let bytes = Day::of(rt.alloc(), &UNNAMED)?.bytes;
    for row in &FRAIL {
        assert!(rt; is_told_of_frail(&rt, rt.alloc(), bytes.as_slice(), row));
    }
    Ok(())
}

/// By three blocks, and by one, which the caller's thread reads alone (`run_blocks_alone`). Run also with each
/// allocation of the process refused in turn, and without some threads.
#[test]
fn blocks_answer_or_want_memory(rt: HostRuntime) -> Result<(), Fail> {
    let bytes = Day::of(rt.alloc(), &BROKEN_EARLIER)?.bytes;
    for length in [3 * HALF, 0] {
        let source = in_memory(bytes.as_slice());
        let told = told_by_blocks(&rt, rt.alloc(), source, length, "sales", 1_000, 2, HEADER);
        assert!(rt; told.1);
        told.0?;
    }
    Ok(())
}

/// Where the second of two blocks begins.
const HALF: u64 = 1 << 20;

/// A file of two blocks, the first readings of which wait for one another, if `meets` is set. It counts the
/// bytes that are read.
#[derive(Drop)]
struct Meeting<'a> {
    bytes: &'a [u8],
    meets: bool,
    first: AtomicBool,
    second: AtomicBool,
    gave_up: AtomicBool,
    count: AtomicU64,
}

impl<'a> Meeting<'a> {
    fn of(bytes: &'a [u8], meets: bool) -> Self {
        Meeting {
            bytes,
            meets,
            first: AtomicBool::new(false),
            second: AtomicBool::new(false),
            gave_up: AtomicBool::new(false),
            count: AtomicU64::new(0),
        }
    }
}

impl<'a> ReadsAt for &Meeting<'a> {
    fn get(&self, place: u64, into: &mut [u8]) -> Result<usize, DeviceFailed> {
        let count = copied(self.bytes, place, into);
        if count > 0 {
            self.count.fetch_add(count as u64, Ordering::SeqCst);
            let (own, other) = if place < HALF {
                (&self.first, &self.second)
            } else {
                (&self.second, &self.first)
            };
            own.store(true, Ordering::SeqCst);
            if self.meets {
                hold(other, &self.gave_up);
            }
        }
        Ok(count)
    }

    fn is_same(&self, _other: &Self) -> bool {
        true
    }
}

/// A day of a little more than two blocks, all of one trade.
fn long_day(alloc: Global) -> Result<Vec<u8>, OutOfMemory> {
    let trade = Day::of(alloc, &[Form::P(1, 10_000, 9)])?.bytes;
    let mut bytes = Vec::new(alloc);
    for _ in 0..2 * HALF / 46 + 1 {
        bytes.extend_from_slice(&trade)?;
    }
    Ok(bytes)
}

/// A query that no trade of the day answers.
const NONE: &str = "sales where symbol in NONE";

/// Whether `workers` workers tell by the blocks of a long day that no trade answers that query.
fn is_told_by_meeting<R: Threads + Wait + Sync>(
    rt: &R,
    alloc: Global,
    meeting: &Meeting<'_>,
    workers: u32,
) -> bool {
    let source = FileBlocks::of(meeting);
    let most = u32::MAX;
    let told = told_by_blocks(rt, alloc, source, 2 * HALF, NONE, most, workers, HEADER);
    told == (Ok(()), true) && !meeting.gave_up.load(Ordering::SeqCst)
}

#[test]
fn two_threads_read_at_once(rt: HostRuntime) -> Result<(), Fail> {
    let bytes = long_day(rt.alloc())?;
    let meeting = Meeting::of(bytes.as_slice(), true);
    assert!(rt; is_told_by_meeting(&rt, rt.alloc(), &meeting, 2));
    Ok(())
}

/// One worker is given no block twice. A guess looks at 4,096 bytes of the second block, and for the last frame of
/// the first one the same number is read behind its target.
#[test]
fn no_byte_is_read_twice_but_for_guesses(rt: HostRuntime) -> Result<(), Fail> {
    let bytes = long_day(rt.alloc())?;
    let meeting = Meeting::of(bytes.as_slice(), false);
    assert!(rt; is_told_by_meeting(&rt, rt.alloc(), &meeting, 1));
    assert!(rt; meeting.count.load(Ordering::SeqCst) <= bytes.len() as u64 + 8_192);
    Ok(())
}

/// A file of which the reading of this number fails.
#[derive(Drop)]
struct Failing<'a> {
    bytes: &'a [u8],
    bad: u64,
    readings: AtomicU64,
}

impl<'a> ReadsAt for Failing<'a> {
    fn get(&self, place: u64, into: &mut [u8]) -> Result<usize, DeviceFailed> {
        if self.readings.fetch_add(1, Ordering::SeqCst) == self.bad {
            return Err(DeviceFailed);
        }
        Ok(copied(self.bytes, place, into))
    }

    fn is_same(&self, _other: &Self) -> bool {
        true
    }
}

/// What `workers` workers tell of all sales by blocks of a source.
fn told_of_sales<R: Threads + Wait + Sync, S: BlockSource + Send + Sync, G: Gate>(
    rt: &R,
    alloc: Global,
    source: S,
    division: Division,
    workers: u32,
    gate: &G,
) -> Result<(), RunFault> {
    let Ok(source) = Arc::new(alloc, source) else {
        return Err(RunFault::OutOfMemory);
    };
    let Ok(query) = parse(alloc, "sales") else {
        return Err(RunFault::OutOfMemory);
    };
    let settings = settings_of(workers, 1, 1_000);
    match answer_blocks(rt, alloc, &source, division, &query, settings, gate) {
        Ok(_) => Ok(()),
        Err(fault) => Err(fault),
    }
}

/// Whether one worker reports, by four blocks, that this reading fails.
fn is_reported<R: Threads + Wait + Sync>(rt: &R, alloc: Global, bytes: &[u8], bad: u64) -> bool {
    let source = FileBlocks::of(Failing {
        bytes,
        bad,
        readings: AtomicU64::new(0),
    });
    let four = Division {
        bytes: 34,
        blocks: 4,
    };
    told_of_sales(rt, alloc, source, four, 1, &FreeGate) == FAILED
}

/// The byte at the limit is asked for, each block but the first is guessed at, and each is read once or more.
#[test]
fn each_reading_that_fails_is_reported(rt: HostRuntime) -> Result<(), Fail> {
    let bytes = Day::of(rt.alloc(), &BROKEN_EARLIER)?.bytes;
    let mut failed = 0;
    for bad in 0..100 {
        if is_reported(&rt, rt.alloc(), bytes.as_slice(), bad) {
            assert!(rt; failed == bad);
            failed += 1;
        }
    }
    assert!(rt; failed >= 8 && failed < 100);
    Ok(())
}

/// A file of which a reading at its start fails once the first pipeline is done, and the gate by which the first run of
/// its first block waits for that. Nobody else reads there by then.
#[derive(Drop)]
struct FailsLate<'a> {
    bytes: &'a [u8],
    is_done: AtomicBool,
    gave_up: AtomicBool,
}

impl<'a> ReadsAt for &FailsLate<'a> {
    fn get(&self, place: u64, into: &mut [u8]) -> Result<usize, DeviceFailed> {
        if place == 0 && self.is_done.load(Ordering::SeqCst) {
            return Err(DeviceFailed);
        }
        Ok(copied(self.bytes, place, into))
    }

    fn is_same(&self, _other: &Self) -> bool {
        true
    }
}

impl<'a> Gate for FailsLate<'a> {
    fn before(&self, pipeline: u8, task: u32, round: u8) {
        if (pipeline, task, round) == (1, 0, 0) {
            hold(&self.is_done, &self.gave_up);
        }
    }

    fn done(&self, pipeline: u8) {
        if pipeline == 1 {
            self.is_done.store(true, Ordering::SeqCst);
        }
    }
}

/// The first block's other run, which failed nowhere, has given the answer by then. The file is the gate of the runs,
/// too.
#[test]
fn a_reading_of_a_run_that_came_too_late_is_reported(rt: HostRuntime) -> Result<(), Fail> {
    let bytes = Day::of(rt.alloc(), &BROKEN_EARLIER)?.bytes;
    let late = FailsLate {
        bytes: bytes.as_slice(),
        is_done: AtomicBool::new(false),
        gave_up: AtomicBool::new(false),
    };
    let two = Division {
        bytes: 67,
        blocks: 2,
    };
    let told = told_of_sales(&rt, rt.alloc(), FileBlocks::of(&late), two, 2, &late);
    assert!(rt; told == FAILED && !late.gave_up.load(Ordering::SeqCst));
    Ok(())
}
