//! Two pipelines on one thread, by schedules: lists of events that happen to the gatherings, in order. `rehearse_pair`
//! gives one outcome, that of threads, for any two schedules by which each task arrived somewhere, and otherwise the
//! first task that is missing. The program doesn't stand on this crate.
//!
//! Not proved: that an arrival runs its task once, and that nothing else runs.
#![tactic(auto)]

mod event;
mod rehearse;
mod rehearsed;
pub mod schedule_laws;

pub use event::{Event, apply};
pub use rehearse::{rehearse_pair, rehearse_pipeline};
pub use rehearsed::Rehearsed;
