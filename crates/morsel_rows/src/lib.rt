//! The rows of one morsel, in partitions: orders and executions in that of their reference, so that they meet in one
//! bucket, and sales with a price of their own in that of their place. Breaks and directory rows are few, and stand
//! together. A message past the moment adds nothing.
//!
//! Not proved: when a partition takes memory, and that one without rows gives it back.
#![tactic(auto)]

mod divisor;
mod partition;
mod room;
mod rows;

pub use base::OutOfMemory;
pub use order_list::{OrderList, OrderRows, RisingRows};
pub use partition::Partition;
pub use rows::MorselRows;
