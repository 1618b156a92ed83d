//! Joins the pieces of a work, which come in any order, repeated or not, into the total of all its inputs.
//!
//! A task is run on one input, and gives a piece. A `Gathering` keeps the total of its first tasks up to a gap, and the
//! pieces behind it; it refuses a piece of other work, a gathering over other inputs, and a total if a task is missing
//! or memory runs out. Merging is commutative, associative and idempotent (`merge_is_a_join`), so several threads may
//! gather. A `Link` makes the inputs of a second pipeline of a total, or halts.
//!
//! Not proved: that a piece is added once, that a refused addition is tried again, and that a task is run once; that a
//! link succeeds if there is memory.
#![tactic(auto)]

mod gather;
mod inputs;
mod link;
mod linked;
mod merge_laws;
mod piece;
mod piece_places;
mod work;

pub use base::OutOfMemory;
pub use gather::{Filed, Gathering, OtherInputs, Stranger, TotalRefused};
pub use inputs::Inputs;
pub use link::Link;
pub use linked::Linked;
pub use merge_laws::{alike_stay_alike, merge_is_a_join, own_inputs_belong};
pub use piece::Piece;
pub use work::Work;
