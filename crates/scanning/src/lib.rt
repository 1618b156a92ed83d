//! The work of the first pipeline (`ScanWork`): of a morsel the rows of its counted messages, in partitions, and its
//! wrong length of least place. Neighbouring morsels can be one input (`ScanInput`, `AreJoined`), which is seen as one
//! morsel: so their lists of rows are as long as a block's. An `OpenScan` takes in frames as they are read, in morsels
//! and in blocks; a `ScanTotal` shares the rows of its inputs and copies none. Inputs add up only if they are morsels
//! of one cut that follow each other (`AreConsecutive`). A `Division` says how long the blocks of a source are, and how
//! many.
//!
//! Not proved: that the capacity that a scan takes at once is enough, or needed; that as many morsels are one input as
//! may be; and that a scan that was refused memory has all frames before the refused one. None changes an answer.
#![tactic(auto)]

mod cut_inputs;
mod division;
mod input;
mod open_scan;
mod scan_work;
mod scanned;
mod total;
mod wrong;

pub use base::OutOfMemory;
pub use cut_inputs::{batch_inputs, scan_inputs};
pub use division::Division;
pub use input::ScanInput;
pub use open_scan::OpenScan;
pub use scan_work::ScanWork;
pub use scanned::Scanned;
pub use total::ScanTotal;
pub use wrong::WrongLength;
