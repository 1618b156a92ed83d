//! Pieces of a source that were read and scanned.

use scanning::Scanned;

/// How a piece ended.
#[derive(Clone, Copy)]
pub enum Tail {
    /// At the first frame that begins at or after its target.
    More,
    /// At the end of the source, after whole frames.
    Whole,
    /// At a frame that the end of the source cuts.
    Cut,
}

/// The scan of the whole frames between two places.
#[derive(Drop)]
pub struct ScannedBlock {
    pub(crate) start: u64,
    pub(crate) end: u64,
    pub(crate) scanned: Scanned,
    pub(crate) tail: Tail,
}
