//! The scan of a file that several threads read side by side, at offsets. `BlockWork` reads a block through one small
//! buffer and keeps what its messages give, not its bytes; `Attempts::join` chains the pieces of all blocks to the scan
//! of the whole file. A block may begin within a message, so `guess` looks for a frame boundary. Nothing rests on the
//! guess: a piece that doesn't begin where the one before it ends is read again from there. A block that is read twice
//! may fail once, and the piece that came second is dropped; so a `Watch` notes each failure, and tells whoever knows
//! of one.
//!
//! Not proved: that whoever reads does so under a watch, and asks it; how often a byte is read, and that the byte at
//! the limit is asked for first; what a `File` holds, of which std names no bytes.
#![tactic(auto)]

mod attempt;
mod block;
mod block_reading;
mod block_source;
mod block_work;
mod blocks;
mod chaining;
mod file_blocks;
mod guessing;
mod request;
mod scanned_block;
mod watch;
mod watched;

pub use attempt::{Attempt, Attempts};
pub use base::OutOfMemory;
pub use block::Block;
pub use block_source::BlockSource;
pub use block_work::BlockWork;
pub use blocks::block_inputs;
pub use day_file::{DeviceFailed, SourceFault};
pub use file_blocks::{FileBlocks, ReadsAt, known_bytes_are_read};
pub use scanning::Division;
pub use watch::{Knowledge, NewWatch, Watch, WatchName};
pub use watched::Watched;
