//! The lines of the bars of many tables, those of one locate and start joined. `BarLines` has them in parts
//! (`sinks::Parts`), each of a range of locates. A part is made with memory: its ticks are gathered and joined in the
//! slots of a grid, or, where that would be too large, in order of the keys of their bars. Or it is written without:
//! then each next bar is looked for in all tables.
//!
//! Not proved: how many ranges there are, and whether a part joins its bars in a grid or by sorted keys: the text is
//! the same. Nor that a part is written without memory: that nothing there is given an allocator shows it.
#![tactic(auto)]

mod bar_grid;
mod bar_lines;
mod bars_in_ranges;
mod gathered;
mod grid;
mod joined_lines;
mod lines_one_by_one;
mod next_bar;

pub use bar_lines::{AllBars, BarLines};
pub use base::OutOfMemory;
