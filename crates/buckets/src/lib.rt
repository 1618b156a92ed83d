//! Buckets: of all rows of a day those of one partition, and what is asked of them. An execution and the orders of its
//! reference are in one partition, so `find` prices each partition's executions by its own orders, and finds the first
//! order row that repeats a reference and the first execution that has no price. It drops sales that are broken or not
//! selected, and lists the others, or makes their bars. The work of the second pipeline, which calls it, stands in
//! `planning`.
//!
//! Not proved: whether orders are searched where they lie, which `RisingOrders` allows if references rise, or copied to
//! a table, and how many of them the filter lets through. What is found is the same.
#![tactic(auto)]

mod bucket;
mod finding;
mod names;
mod needed;
mod partition_rows;
mod plan;
mod product;
mod rising_orders;
mod sales_taken;
mod trading;

pub use base::OutOfMemory;
pub use bucket::Bucket;
pub use finding::find;
pub use names::DayNames;
pub use plan::Plan;
pub use product::Product;
pub use trading::Faults;
