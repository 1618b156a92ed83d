//! All ways to answer a query over a whole day file: `run`, `run_blocks` and `run_blocks_alone` (`runs`), which write
//! the text to a sink, and here those that keep it, on threads, on one thread and by rehearsal. The program doesn't
//! stand on this crate.
//!
//! `plain`: the answer by one thread, with all rows of the day in one partition. `src/answering.rt` is the shortest way
//! from bytes to an answer and the best file to read first. Its clause is `IsAnswer` and names no table, row, morsel or
//! thread. A truncated file comes before a wrong length, that before a repeated reference, and that before an unknown
//! one.
//!
//! `answer` takes a cut, and `answer_blocks` a source that is read at places; both answer on threads, as `run` and
//! `run_blocks` do. `answer_alone` and `answer_blocks_alone` do it on the caller's thread, and are proved to return.
//!
//! `rehearse` takes a cut and two lists of events, which say in what order pieces arrive, are repeated, lost and
//! merged, and gives on one thread the answer that threads would give, or the first task that is missing.
//!
//! `run_laws` and `refusal_laws` say what follows of the promise of a run.
//!
//! Not proved: that a call with threads returns, that threads share the work, and that there is an answer if there is
//! memory; that `answer_blocks` reports each failed reading, though one that it reports did fail, if the source says
//! which do.
#![tactic(auto)]

mod answering;
mod answering_blocks;
mod answering_cuts;
mod keeping_texts;
mod outcome_law;
pub mod refusal_laws;
mod refused;
mod rehearsal_laws;
mod rehearsing;
pub mod run_laws;

pub use answering::plain;
pub use answering_blocks::{answer_blocks, answer_blocks_alone};
pub use answering_cuts::{answer, answer_alone};
pub use answers::{Answer, Text, one_answer};
pub use outcome_law::one_outcome_of_a_cut;
pub use rehearsal_laws::{
    all_arrived_answers, each_once_answers, one_rehearsal, schedules_and_threads_agree,
};
pub use rehearsing::{Rehearsal, rehearse};
pub use runs::{
    BlockSource, Counted, CountedSink, Crew, Cut, DayFault, DayFile, DeviceFailed, Division,
    FileBlocks, FreeGate, Gate, LONGEST_FILE, OutOfMemory, Query, QueryFault, ReadsAt, RunFault,
    Settings, Sink, Source, What, WriteFailed, deliver, parse, run, run_blocks, run_blocks_alone,
};
pub use schedules::Event;
