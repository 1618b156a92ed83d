//! What a worker of a pipeline does (`work`): it claims tasks of a dispatcher, runs those that aren't marked, sends
//! their pieces to a `Port`, and marks what the port took. `run_missing` runs on the gathering's thread what no worker
//! brought. A `Gate` hears of each run, and nothing depends on it.
//!
//! Not proved: that a worker sends anything. `sent` speaks of ports that tell what they took, and a channel doesn't.
#![tactic(auto)]

mod caller_runs;
mod gate;
mod port;
mod worker;

pub use caller_runs::{run_missing, run_task};
pub use gate::{FreeGate, Gate};
pub use port::Port;
pub use worker::work;
