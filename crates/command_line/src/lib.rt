//! Does a job on the program's devices. `start` opens the file of the job's path in a file system (`DayFiles`), or
//! reads standard input: by `perform_blocks` at offsets, if the file told that it is regular and no size of morsels is
//! given, and else by `perform` in order. With status 0 nothing goes to standard error; a file that can't be opened is
//! reported before the query is looked at. Over a file system that tells what its files hold, an answer is one to what
//! the path's file holds (`known_files_are_answered`).
//!
//! Not proved: what the system (`HostRuntime`) opens for a path, and which of its files are regular; that a file is
//! opened once.
#![tactic(auto)]

mod day_files;
mod performing;
mod start_laws;
mod starting;

pub use arguments::{Job, WordsFault, command, explain, reading_fault, tell};
pub use day_files::{DayFiles, OpenDay};
pub use performing::{perform, perform_blocks};
pub use runs::{
    BlockSource, Counted, CountedSink, Crew, DayFault, DeviceFailed, FileBlocks, LONGEST_FILE,
    QueryFault, ReadsAt, RunFault, Settings, Sink, Source,
};
pub use start_laws::known_files_are_answered;
pub use starting::start;
