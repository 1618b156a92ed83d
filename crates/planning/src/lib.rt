//! The second pipeline, and what stands before and behind it. `PlanLink`, the link from the first one, makes names,
//! breaks and the selection of all morsels once, and a bucket of each partition, which share all rows; or it halts at
//! the first wrong length. `BucketWork` finds in a bucket a repeated or an unknown reference, and lists its sales that
//! are asked for; a total keeps the fault of least place of each sort. `fault_of` is the first repeated reference of
//! all buckets, else the first unknown one. If there is none, `put_text` writes the text, in parts that threads make.
//!
//! The answer rests on its lemmas. Partition b of the total has the rows of the whole list of messages that go to b
//! (`partition_is`), and the total has its breaks and directory rows (`breaks_are`, `directory_is`) and the file's
//! first wrong length (`wrong_is`). The buckets' faults are those of the whole day (`repeated_found`, `unknown_found`)
//! and their sales in some order the day's (`lists_are`), so their text is its text.
#![tactic(auto)]

mod bucket_total;
mod bucket_work;
mod day_plan;
mod fault_and_tables;
mod lines;
mod listed_text;
mod plan_link;
mod plan_making;

pub use base::OutOfMemory;
pub use bucket_total::{BucketTotal, Found};
pub use bucket_work::BucketWork;
pub use buckets::DayNames;
pub use day_plan::DayPlan;
pub use fault_and_tables::{fault_of, tables};
pub use listed_text::{put_text, put_text_alone};
pub use plan_link::PlanLink;
