//! Tables of bars, and their texts. A `BarTable` has one bar (`Bar`, of the crate `bar`) for each locate and interval
//! with sales, whatever their order, and tables of two lists of sales merge into the table of both. A `BucketBars`
//! keeps what its bars need of their sales (`Tick`); contracts see bars. That no sum wraps is an invariant of the
//! types. `bar_lines` has the lines of many tables.
//!
//! Not proved: in which order a bucket keeps the ticks of one locate.
#![tactic(auto)]

mod bar_table;
mod bucket_bars;
mod interval;
mod texts;
mod tick;
mod tick_list;

pub use bar::Bar;
pub use bar_table::BarTable;
pub use base::OutOfMemory;
pub use bucket_bars::BucketBars;
pub use row_types::Sale;
pub use texts::{Line, header, line_of, write_bar, write_header};
pub use tick::Tick;
pub use tick_list::TickList;
pub use time_and_sales::Name;
