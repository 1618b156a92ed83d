//! What the buckets of a day share.

use broken_trades::Breaks;
use meaning::What;
use morsel_rows::MorselRows;
use probe::Selection;
use std::alloc::Global;
use std::sync::Arc;

/// What the buckets of a day share: all rows, and what is asked of them.
#[derive(Drop)]
pub struct Plan {
    /// The rows of each morsel, in the order of the file.
    pub rows: Vec<Arc<MorselRows, Global>>,
    /// Those of the whole day.
    pub breaks: Breaks,
    /// Which sales are asked for.
    pub selection: Selection,
    /// What is listed of them.
    pub what: What,
}
