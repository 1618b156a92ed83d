//! How a source is divided into blocks.
ghost use Rattle.std.specs.Prelude.{◌≡◌, ◌<◌, ◌≤◌};
ghost use Rattle.base.specs.declared.limits.TheConstants.{LONGEST_FILE, MOST_TASKS};

use base::limits::{LONGEST_FILE, MOST_TASKS};

/// The bytes of the smallest block and of the largest, if the source isn't longer than is expected: large enough that
/// what a block costs beside its bytes is nothing, small enough that threads end together.
const SMALLEST_BLOCK: u64 = 1 << 20;

const LARGEST_BLOCK: u64 = 8 << 20;

/// How many blocks each worker is to have, and how many there are for that at most: each has a list of rows for each
/// partition, and short lists take longer.
const BLOCKS_A_WORKER: u64 = 8;

const MOST_SHARES: u64 = 256;

/// A number of blocks of one length in bytes, of which the last goes on to the source's end.
#[derive(Clone, Copy)]
pub struct Division {
    pub bytes: u64,
    pub blocks: u32,
    ghost in_range: { (bytes ≤ LONGEST_FILE) × (0 < blocks) × (blocks ≤ MOST_TASKS) },
}

impl Division {
    /// The blocks of a source that is expected to have `length` bytes, for this many workers.
    pub fn of(length: u64, workers: u32) -> Self {
        let length = length.min(LONGEST_FILE);
        let shares = BLOCKS_A_WORKER * u64::from(workers.max(1));
        let share = length / shares.min(MOST_SHARES);
        let bytes = share.clamp(SMALLEST_BLOCK, LARGEST_BLOCK);
        let blocks = (length / bytes).clamp(1, u64::from(MOST_TASKS)) as u32;
        Division { bytes, blocks }
    }
}
