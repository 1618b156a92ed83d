//! The order rows of a day file, and the table that prices an execution: for each order reference the row of least
//! place, whatever the order in which rows come. A row stands at its place, the byte offset of its message in the file.
//!
//! A table has the rows by reference and place, reports the repeated one of least place, and finds a reference by an
//! interpolation search (`first_of`), which gives the same row wherever it begins. `partition` is the partition of a
//! reference, `greatest_prime` the number of partitions. `PricesExecutions` is what any such table promises.
#![tactic(auto)]

mod partitions;
mod prices;
mod searching;
mod sorted_rows;
mod sorting;
mod table;

pub use base::OutOfMemory;
pub use partitions::{greatest_prime, partition};
pub use prices::{Expected, PricesExecutions};
pub use row_types::OrderRow;
pub use searching::{Near, Referenced, Spread, first_of, point_of};
pub use table::{Built, OrderTable, Repeated};
