//! Order rows in little memory, and which of them are needed. A row takes 10 bytes as long as places and references lie
//! close together, as in a morsel of a day, and 20 where they don't; contracts see one list of rows. Rows whose
//! references rise are searched where they lie (`RisingRows`).
//!
//! Of others a table needs those alone whose references executions have, or that may repeat one, and most orders of a
//! day are never executed. A bitmap (`OrderFilter`) finds these without a sort: a semi-join with bits that references
//! share, so that some rows are kept for nothing and none is lost.
//!
//! Not proved: how many bytes a row takes, and how many rows are kept for nothing. A filter that keeps all meets each
//! clause.
#![tactic(auto)]

mod bits;
mod filter;
mod lean;
mod offsets;
mod order_rows;
mod orders;
mod rising_rows;
mod unaligned;
mod wide;

pub use base::OutOfMemory;
pub use filter::OrderFilter;
pub use order_rows::OrderRows;
pub use orders::OrderList;
pub use rising_rows::RisingRows;
