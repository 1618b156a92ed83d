//! Blocks of a file that gives few bytes a call, or fails at some places.
use crate::days::broken_earlier;
use crate::rows::pass_all;
use base::limits::LONGEST_FILE;
use block_scan::{
    BlockSource, BlockWork, DeviceFailed, Division, FileBlocks, OutOfMemory, ReadsAt, SourceFault,
    block_inputs,
};
use gathering::Inputs;
use morsel_rows::{MorselRows, Partition};
use pipelines::{Crew, FreeGate, run_first};
use scanning::{ScanTotal, WrongLength};
use std::alloc::Global;
use std::sync::{Arc, Wait};
use std::test::Fail;
use std::thread::Threads;
use tests_support::{BROKEN_EARLIER, Day, Form, MSFT, WITH_A_SHORT_ADD};

/// A file of which each call gives at most `step` bytes, and fails from the place `bad` on.
#[derive(Drop)]
struct Disk<'a> {
    bytes: &'a [u8],
    step: usize,
    bad: u64,
}

impl<'a> ReadsAt for Disk<'a> {
    fn get(&self, place: u64, into: &mut [u8]) -> Result<usize, DeviceFailed> {
        if place >= self.bad {
            return Err(DeviceFailed);
        }
        if place >= self.bytes.len() as u64 {
            return Ok(0);
        }
        let rest = &self.bytes[place as usize..];
        let count = self.step.min(into.len()).min(rest.len());
        into[..count].copy_from_slice(&rest[..count]);
        Ok(count)
    }

    fn is_same(&self, _other: &Self) -> bool {
        true
    }
}

/// In how many partitions rows are kept.
const PARTS: u32 = 4;

/// How many rows there are, and the place of the first wrong length.
type Told = (usize, Option<u64>);

/// How many rows a partition has.
fn count_in(partition: &Partition) -> usize {
    let (orders, executions) = (partition.orders().len(), partition.executions().len());
    orders
        .saturating_add(executions)
        .saturating_add(partition.own_priced().len())
}

/// How many rows a morsel has.
fn count_of(rows: &MorselRows) -> usize {
    let mut count = rows.directory().len().saturating_add(rows.breaks().len());
    for number in 0..PARTS {
        if let Some(partition) = rows.partition(number) {
            count = count.saturating_add(count_in(partition));
        }
    }
    count
}

/// The place of a wrong length.
fn place_of(wrong: Option<WrongLength>) -> Option<u64> {
    Some(wrong?.place)
}

/// What a total has.
fn told(total: ScanTotal) -> Told {
    let wrong = place_of(total.wrong());
    let mut count = 0usize;
    for rows in total.into_rows() {
        count = count.saturating_add(count_of(&rows));
    }
    (count, wrong)
}

/// The blocks of a source of at most 10,000 bytes, to be shared.
fn inputs_of<S: BlockSource + Send + Sync>(
    alloc: Global,
    source: S,
    division: Division,
) -> Result<Arc<Inputs<BlockWork<S>>, Global>, SourceFault> {
    let Ok(source) = Arc::new(alloc, source) else {
        return Err(SourceFault::OutOfMemory);
    };
    let inputs = block_inputs(alloc, &source, None, PARTS, 10_000, division)?;
    match Arc::new(alloc, inputs) {
        Ok(inputs) => Ok(inputs),
        Err(_) => Err(SourceFault::OutOfMemory),
    }
}

/// What the blocks of a source give, with a worker for each.
fn told_by_blocks<R: Threads + Wait + Sync, S: BlockSource + Send + Sync>(
    rt: &R,
    alloc: Global,
    source: S,
    division: Division,
) -> Result<Told, SourceFault> {
    let inputs = inputs_of(alloc, source, division)?;
    let crew = Crew {
        workers: division.blocks.clamp(1, 64),
        gatherers: 1,
    };
    let attempts = run_first(rt, alloc, &inputs, crew, &FreeGate)?;
    Ok(told(attempts.join(alloc)?))
}

/// Messages with rows of most kinds: 296 bytes.
const ROWS: [Form; 8] = [
    Form::R(7, MSFT),
    Form::A(1, 4_105_000),
    Form::E(1, 40, 9),
    Form::B(9),
    Form::C(1, 20, 11, b'Y', 4_106_000),
    Form::U(1, 3, 4_104_000),
    Form::P(100, 4_107_000, 12),
    Form::Q(100, 4_107_000, 13),
];

/// Blocks of this many bytes, and how many.
fn division_of(bytes: u64, blocks: u32) -> Division {
    Division {
        bytes: bytes.min(LONGEST_FILE),
        blocks: blocks.clamp(1, 64),
    }
}

/// How often a day has some frames, and what it gives. The last has more frames than a guess looks at.
static DAYS: [(&[Form], u32, Told); 4] = [
    (&[], 0, (0, None)),
    (&BROKEN_EARLIER, 1, (4, None)),
    (&WITH_A_SHORT_ADD, 2, (4, Some(84))),
    (&ROWS, 7, (56, None)),
];

/// Adds these bytes `times` times.
fn add_times(bytes: &mut Vec<u8>, once: &[u8], times: u32) -> Result<(), OutOfMemory> {
    for _ in 0..times {
        bytes.extend_from_slice(once)?;
    }
    Ok(())
}

/// The bytes of a day that has these frames `times` times.
fn day_of(alloc: Global, forms: &[Form], times: u32) -> Result<Vec<u8>, OutOfMemory> {
    let mut bytes = Vec::new(alloc);
    add_times(&mut bytes, &Day::of(alloc, forms)?.bytes, times)?;
    Ok(bytes)
}

/// How many bytes a call gives, and the blocks, whose length and number may be wrong.
static READINGS: [(usize, u64, u32); 10] = [
    (10_000, 1, 1),
    (1, 134, 1),
    (5, 134, 1),
    (10_000, 1, 2),
    (60, 67, 2),
    (1, 601, 3),
    (5, 258, 7),
    (60, 258, 7),
    (10_000, 14_286, 7),
    (10_000, LONGEST_FILE, 3),
];

/// How many of the ways to read these bytes, up to the first that doesn't, tell what they give.
fn right_readings<R: Threads + Wait + Sync>(
    rt: &R,
    alloc: Global,
    bytes: &[u8],
    want: Told,
) -> usize {
    let mut right = 0usize;
    for (step, length, blocks) in &READINGS {
        let division = division_of(*length, *blocks);
        let disk = Disk {
            bytes,
            step: *step,
            bad: u64::MAX,
        };
        if told_by_blocks(rt, alloc, FileBlocks::of(disk), division) != Ok(want) {
            break;
        }
        right = right.saturating_add(1);
    }
    right
}

/// How many readings of all days, up to the first wrong one of a day, are right.
fn right_days<R: Threads + Wait + Sync>(rt: &R, alloc: Global) -> Result<usize, OutOfMemory> {
    let mut right = 0usize;
    for (forms, times, want) in &DAYS {
        let bytes = day_of(alloc, forms, *times)?;
        right = right.saturating_add(right_readings(rt, alloc, &bytes, *want));
    }
    Ok(right)
}

#[test]
fn a_file_that_gives_few_bytes_a_call(rt: HostRuntime) -> Result<(), Fail> {
    pass_all(right_days(&rt, rt.alloc()), 4 * 10)
}

/// From which place on reading fails: at the start, in the first of three blocks and in the last one, and at the
/// limit alone; and how many blocks there are.
static FAILURES: [(u64, u32); 5] = [(0, 1), (20, 1), (20, 3), (120, 3), (10_000, 1)];

/// How many of these, up to the first that isn't, are told as failures.
fn right_failures<R: Threads + Wait + Sync>(rt: &R, alloc: Global) -> Result<usize, OutOfMemory> {
    let bytes = broken_earlier(alloc)?;
    let mut right = 0usize;
    for (bad, blocks) in &FAILURES {
        let disk = Disk {
            bytes: &bytes,
            step: 10,
            bad: *bad,
        };
        let told = told_by_blocks(rt, alloc, FileBlocks::of(disk), division_of(45, *blocks));
        if told != Err(SourceFault::ReadFailed) {
            break;
        }
        right = right.saturating_add(1);
    }
    Ok(right)
}

#[test]
fn a_reading_that_fails(rt: HostRuntime) -> Result<(), Fail> {
    pass_all(right_failures(&rt, rt.alloc()), 5)
}
