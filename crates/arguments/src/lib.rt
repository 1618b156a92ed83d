//! The job that a command line asks for: the rules of the command line are given to `clap`, and `command` makes a file,
//! a query and settings of what they match. Whether `--morsel` was given is kept beside its value, since a file is read
//! in morsels only then.
//!
//! And what the program reports if there is no answer: the line of a fault and the status, which are one table
//! (`report_of`), and help, the version and wrong words (`explain`). Lines are exact to the byte. If standard error
//! fails, it has the first bytes of the line; help that the output doesn't take is a failed write.
//!
//! Not proved: the texts of help, of the version and of wrong words, of which no clause of `clap` speaks; and that
//! `command` reports `OutOfMemory` only if memory runs out.
#![tactic(auto)]

mod arguments;
mod fault_lines;
mod reporting;

pub use arguments::{Job, WordsFault, command, reading_fault};
pub use outcomes::{Crew, DayFault, QueryFault, RunFault, Settings};
pub use reporting::{explain, report, tell};
pub use sinks::Sink;
