//! The match numbers that broken trade messages name (`Breaks`). A break removes every trade of its number, wherever in
//! the file it stands, so the numbers are all that is kept. The crate drops no trade itself; `keep` of `probe` does. A
//! union that is refused memory leaves the set as it was.
#![tactic(auto)]

mod breaks;

pub use base::OutOfMemory;
pub use breaks::Breaks;
