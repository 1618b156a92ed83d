//! Which messages of a day count, and the row that each gives (`row_of`). A message counts if its own time isn't past
//! the query's moment, whatever the order of times. An execution with a price counts only if it is printable, and a
//! replace gives its new reference.
//!
//! `specs/Messages` has most of the rules of `docs/FORMATS.md`. That they are the exchange's is proved nowhere; they
//! have to be believed.
#![tactic(auto)]

mod moment;
mod row;
mod row_laws;

pub use moment::counts;
pub use row::{Row, row_of};
pub use row_laws::{counted_are_joined, rows_are_joined};
