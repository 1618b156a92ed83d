//! Answers a query over a whole day file on threads, and writes the text to a sink: `run` reads its source in order,
//! batch by batch, and `run_blocks` at offsets. `run_blocks_alone` does that on the caller's thread, and is proved to
//! return; a short day is answered so. The clause `ran` of a run is the theorem of the program: each outcome means
//! exactly what `Ran` says, whatever the settings and the threads. What is known of the source differs (`Reading`).
//! Nothing is written before every refusal but the sink's is past.
//!
//! What a run finds before it writes anything is a `Made`: `made_in_blocks`, `made_of_block` and `made_alone` find it
//! for a query that is parsed already, and `made_of` and `made_of_total` in what the pipelines gave. `query_of` and
//! `made_of_fault` are how every run begins, and what it reports of a source that gives no rows.
//!
//! Not proved: that a call with threads returns, that threads share the work, and that there is an answer if there is
//! memory; that `run_blocks` reports each failed reading, though one that it reports did fail, if the source says which
//! do.
#![tactic(auto)]

mod calls;

pub use answers::DayFault;
pub use base::OutOfMemory;
pub use block_scan::{BlockSource, Division, FileBlocks, ReadsAt};
pub use calls::alone::{made_alone, made_of_block, run_blocks_alone};
pub use calls::ends::{made_of_fault, query_of};
pub use calls::made::{ListedDay, Made, fault_of_length, made_of, made_of_total};
pub use calls::run::run;
pub use calls::run_blocks::{made_in_blocks, run_blocks};
pub use day_file::{Counted, Cut, DayFile, DeviceFailed, LONGEST_FILE, Source};
pub use outcomes::{RunFault, Settings};
pub use pipelines::{Crew, FreeGate, Gate};
pub use query::{Query, QueryFault, What, parse};
pub use sinks::{CountedSink, Sink, WriteFailed, deliver};
