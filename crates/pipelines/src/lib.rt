//! Pipelines of work on threads: two, of which the second works on what a link makes of the first one's total
//! (`run_pair`), and each of the two alone (`run_first`, `run_second`). `run_alone` runs both on the caller's thread,
//! needs no handle and is proved to return.
//!
//! Workers claim tasks of a dispatcher, run them and send the pieces to gatherers, of which the caller's thread is the
//! first; the caller runs what no worker brought. The outcome is that of both works on their whole lists of inputs,
//! whatever the threads do. Inputs are compared by their numbers, which is proved to be enough (`KnownInput`).
//!
//! Not proved: that calls with threads return, that threads start and work at once, and that a slow task is given
//! again. What starts threads and makes channels has no clause, since the total is the same without them.
#![tactic(auto)]

mod alone;
mod by_number;
mod channel_port;
mod employ;
mod gatherers;
mod outcome;
pub mod outcome_law;
mod pair;
mod pipeline;

pub use alone::run_alone;
pub use channel_port::ChannelPort;
pub use dispatcher::{Dispatcher, Seat};
pub use gatherers::{
    Gatherer, channel_of, gather_all, gather_until_covered, merge_all, start_gatherers,
};
pub use gathering::{Gathering, Inputs, Link, Linked, OutOfMemory, Piece, Work};
pub use outcome::Outcome;
pub use outcomes::Crew;
pub use pair::{run_first, run_pair, run_second};
pub use workers::{FreeGate, Gate, Port, run_missing, run_task, work};
