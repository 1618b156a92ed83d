//! What gives bytes in order (`Source`; `Counted` over any reader), and a day file in memory (`DayFile`), which
//! `read_day` reads up to a limit: a source is too long only if it gave a byte more. An error of the reader, an
//! interruption too, is a failure.
//!
//! Not proved: that a reader isn't called again after an error; what a real file or pipe holds, of which std names no
//! bytes.
#![tactic(auto)]

mod counted;
mod day;
mod day_reading;
mod source;

pub use base::OutOfMemory;
pub use base::limits::LONGEST_FILE;
pub use counted::Counted;
pub use day::DayFile;
pub use day_reading::{ReadFault, read_day};
pub use source::{DeviceFailed, Source};
