//! Writes a query as its canonical text, and has the laws of the query language, on which the program doesn't stand: a
//! text has at most one meaning, it has a meaning or a fault and never both, what is written for a query means that
//! query, and the first fault is that of the first wrong word by the grammar alone (`fault_of_first_wrong_word`).
//!
//! A word is wrong if no further words make a query of the text up to it (`specs/WrongWords`). Three beginnings count
//! as right though none do: `bars` and a number that is a width in no unit, a span from the day's end, and `and` after
//! a condition of each sort.
#![tactic(auto)]

mod grammar_laws;
mod writer;

pub use base::OutOfMemory;
pub use grammar_laws::{canonical_text, fault_of_first_wrong_word, meaning_or_fault, one_meaning};
pub use writer::write;
