//! A batch: morsels of a stream that follow each other.
ghost use Rattle.std.specs.Prelude.{◌≤◌, ◌+◌, length};
ghost use Rattle.std.specs.List.{concat};
ghost use Rattle.base.specs.declared.limits.TheConstants.{LONGEST_FILE, MOST_MORSELS};

use day_file::Cut;

/// Morsels of a stream that follow each other.
#[derive(Drop)]
pub struct Batch {
    /// The morsels. The numbers and places that they have are those within the batch.
    pub cut: Cut,
    /// How many morsels of the stream come before them.
    pub first: u32,
    /// How many bytes of the stream come before them.
    pub start: u64,
    /// Whether the stream ends with them.
    pub is_last: bool,
    ghost few: { first + length cut ≤ MOST_MORSELS },
    ghost within: { start + length (concat cut) ≤ LONGEST_FILE },
}
