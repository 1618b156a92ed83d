//! What the tests of several crates share. Of bytes: sources, readers and writers that give or take few bytes a call
//! and fail at some call; bytes as a file that is read at places (`in_memory`); and day files that are made of one
//! `Form` for each frame, which may be written as text. That `Trickle` keeps the laws of `Source` is proved, as of
//! every source.
//!
//! Of pipelines: a work whose inputs are numbers and whose total is their sum. All inputs of a test, their values and
//! what else the test makes share a `Watch`. It counts runs and growths, refuses the growths that a test names, and
//! lets two runs wait for one another. Of the gates `Warden` holds runs until it hears what they wait for, and
//! `Counter` counts them. And there is a port that keeps what it is sent. They count by atomics, whose values no
//! contract can name.
#![tactic(auto)]

mod counter;
mod days;
mod forms;
pub mod inputs;
mod keeping;
mod memory;
mod notation;
mod readers;
pub mod sum;
mod trickle;
mod warden;
pub mod watch;
mod writers;

pub use counter::{Counter, are_all, counts};
pub use days::{
    BROKEN_EARLIER, MSFT, NAMED, NAMED_TEXT, SHORT_ADD, UNNAMED, UNNAMED_TEXT, WITH_A_SHORT_ADD,
    file_of,
};
pub use forms::{Day, Form};
pub use inputs::{NUMBERS, inputs_of, shared_inputs_of};
pub use keeping::KeepingPort;
pub use memory::{Memory, in_memory};
pub use notation::{append_day, append_text, fields_of, not_written_so, number, overwrite};
pub use readers::Interrupted;
pub use sum::{Number, Sum, Value};
pub use trickle::Trickle;
pub use warden::{Heard, Hold, Warden};
pub use watch::{Watch, hold, hold_for};
pub use writers::InterruptedWriter;
