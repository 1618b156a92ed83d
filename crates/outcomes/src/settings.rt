//! The settings of a run: limit, crew, morsels and partitions.
ghost use Rattle.std.specs.Prelude.{◌≡◌, ◌<◌, ◌≤◌};
ghost use Rattle.base.specs.declared.limits.TheConstants.{LARGEST_MORSEL, LONGEST_FILE};
ghost use Rattle.base.specs.declared.limits.TheConstants.{MOST_PARTITIONS};

use crate::crew::Crew;

/// How a query is answered. The crew, the morsel and the parts only affect speed and memory: no text of an answer and
/// no fault of a day depends on them. A file that isn't truncated, is cut while it is read, and has more than 65,536
/// morsels of the size asked for is refused instead of answered.
#[derive(Clone, Copy)]
pub struct Settings {
    /// How many threads work, and how many gather what they find.
    pub crew: Crew,
    /// The least size of a morsel, in bytes: 1 to 1,073,741,824. A thread takes one at once, or some neighbouring ones.
    /// A file that is read at places is not cut into morsels, and the size has no part in it.
    pub morsel: u64,
    /// How many partitions the order references are divided into at most: 1 to 256. `run` and `run_blocks` take the
    /// greatest prime that isn't above it.
    pub parts: u32,
    /// The most bytes that a day file may have: at most 68,719,476,736.
    pub limit: u64,
    ghost morsel_in_range: { (0 < morsel) × (morsel ≤ LARGEST_MORSEL) },
    ghost parts_in_range: { (0 < parts) × (parts ≤ MOST_PARTITIONS) },
    ghost limit_in_range: { limit ≤ LONGEST_FILE },
}
