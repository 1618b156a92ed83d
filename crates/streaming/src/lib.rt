//! Cuts a stream into morsels while it is read, batch by batch (`BatchReader`), so that no more than a batch has to be
//! kept. The batches, joined, are the cut of all that the source gave, and a refusal is that of all its bytes.
//! `scan_source` reads a whole source so: threads scan each batch while the next one is read. `specs/Readings` says
//! what is known of a source that is read in order.
//!
//! Not proved: how many bytes a batch has, and that `scan_source` returns, which waits for its threads.
#![tactic(auto)]

mod batch;
mod batches;
mod scanned_batches;

pub use batch::Batch;
pub use batches::BatchReader;
pub use day_file::{Cut, LONGEST_FILE, MOST_MORSELS, Morsel, OutOfMemory, Source, SourceFault};
pub use scanned_batches::{WholeSource, scan_source};
