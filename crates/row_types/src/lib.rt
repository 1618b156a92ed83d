//! The rows that a day's messages give: `OrderRow`, `Execution`, `Sale` with its `Kind`, `Unknown`, `DirectoryRow`.
//! They are plain data; `day_rows` says what they mean. A `Sale` is any trade with its price, broken ones and those of
//! no shares too, until `keep` of `probe` drops them.
#![tactic(auto)]

mod directory;
mod order;
mod trade;

pub use directory::DirectoryRow;
pub use order::OrderRow;
pub use trade::{Execution, Kind, Sale, Unknown};
