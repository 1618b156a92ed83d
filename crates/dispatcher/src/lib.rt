//! Deals the tasks of a pipeline to workers, each task at most twice, and notes which tasks are done.
//!
//! Workers on any number of threads share a `Dispatcher`, and each owns a `Seat`. A claim takes the next number of all
//! seats together: with n tasks, the numbers below 2 * n go through the tasks twice, and later ones find no task.
//! `claim`, `mark`, `is_marked` and `count_claims` are one atomic step each: they take no memory and wait for nobody.
//! No lock can stand in for them: locking a mutex asks for a handle with `Wait`, which these functions don't have, and
//! a loop of tries has no measure by which it ends.
//!
//! Not proved: that a look sees the marks of another seat at some time.
#![tactic(auto)]

mod dispatcher;
mod rule;
mod seat;
mod tally;

pub use base::OutOfMemory;
pub use dispatcher::{Claim, Dispatcher};
pub use seat::Seat;
pub use tally::{Marks, SettleRefused, Tally};
