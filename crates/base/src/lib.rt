//! What all layers share: definitions and lemmas on lists, and on tests of equality, that belong to no layer; the
//! earlier of two things that stand at places (`earlier`); the limits of the product (`limits`); and the refusal of a
//! growth (`OutOfMemory`). Beside each limit a `prove!` says its number once more, so a wrong one is refused while the
//! crate is read.
#![tactic(auto)]

pub mod limits;
mod places;
mod pushing;

pub use places::earlier;
pub use pushing::{copied, push};

/// Why a call refused: a growth found no memory.
pub type OutOfMemory = std::alloc::AllocError;
