//! A day file of TotalView-ITCH messages: its frames, how it ends, and the morsels that it may be cut into.
//!
//! A frame is a message behind its length: two bytes, the high one first, which don't count themselves; a length of 0
//! alone is a frame, too. `Frames` walks over bytes that are there. A `Morsel` is one or more whole frames, and a `Cut`
//! keeps the morsels of a file, whoever cuts it. `specs/Sources` says what is known of a source that was read, in order
//! or at places, and `SourceFault` why it gives no day. Changed bytes within a message are no fault: frames have no
//! checksum.
#![tactic(auto)]

mod day;
mod frame;
mod frame_laws;
mod morsel;
mod morsels;
mod source_fault;
mod truncated;

pub use base::OutOfMemory;
pub use base::limits::{LONGEST_FILE, MOST_MORSELS};
pub use day::frames;
pub use frame::{Frame, Frames, LENGTH_BYTES, LONGEST_FRAME, append_frame};
pub use frame_laws::one_reading;
pub use morsel::Morsel;
pub use morsels::Cut;
pub use source_fault::SourceFault;
pub use sources::{Counted, DayFile, DeviceFailed, ReadFault, Source, read_day};
pub use truncated::{Truncated, check};

const _: () = prove!(LONGEST_FILE == 68_719_476_736);
