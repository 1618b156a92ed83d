//! The query language: `parse` reads a text as a query, or gives the first fault from the left, with its offset in
//! bytes. What a query means is in the crate `meaning`, which this one exports too. Times and widths are in seconds.
//!
//! The grammar is `specs/Grammar`, the faults are `specs/Faults`. That these are what a reader means by the first fault
//! has to be believed; the law `fault_of_first_wrong_word` of `canonical_query` says the same by the grammar, both
//! ways. `parse` runs out of memory only if the text lists symbols.
#![tactic(auto)]

mod parsing;
mod values;
mod words;

pub use meaning::{
    Kinds, LocateList, Locates, Names, OutOfMemory, Query, Selection, Span, Symbol, Symbols, What,
    selection,
};
pub use outcomes::QueryFault;
pub use parsing::parse;
pub use values::COLON;
pub use words::SPACE;
