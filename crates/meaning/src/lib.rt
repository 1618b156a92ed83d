//! What a query means: what is listed, and of which sales. `selection` gives the sales it selects once the names of the
//! day's locates are known: the locates from 0 to 65,535 whose names are listed, the span and the kinds. Without
//! symbols it never runs out of memory. Times and widths are in seconds.
#![tactic(auto)]

mod query;
mod select;
mod sorted_symbols;
mod symbols;

pub use base::OutOfMemory;
pub use probe::{Kinds, LocateList, Locates, Selection, Span};
pub use query::{Query, What};
pub use select::selection;
pub use symbols::{COMMA, Symbol, Symbols};
pub use time_and_sales::Names;
