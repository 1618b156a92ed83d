//! The lines of the sales of many listings, by place, each under the name of its locate. `SaleLines` has them in parts
//! (`sinks::Parts`), each of a range of places. A part is made in memory of its own, by a merge, or written without
//! memory: then each next sale is looked up in all listings.
//!
//! Not proved: that the parts are even, and that a part is written without memory: nothing there is given an allocator.
#![tactic(auto)]

mod made_names;
mod sale_lines;
mod sales_in_ranges;
mod sales_in_turn;

pub use base::OutOfMemory;
pub use sale_lines::{AllSales, SaleLines};
