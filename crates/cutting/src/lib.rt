//! Cuts a day file into morsels of whole frames: all bytes at once, by a target length (`cut`) or at given places
//! (`cut_at`), or while a source is read (`Cutter`).
//!
//! A morsel is the shortest run of frames that reaches the target length. A `Cutter` is fed by a source, gives away the
//! morsels that it has so far, and ends with the cut or the refusal that `cut` gives of all bytes at once. It asks a
//! source for no byte without memory for it.
#![tactic(auto)]

mod cut_laws;
mod cutter;
mod cutting;
mod rest;
mod runs;

pub use base::OutOfMemory;
pub use cut_laws::{one_cut, one_cut_at};
pub use cutter::Cutter;
pub use cutting::{CutFault, cut, cut_at};
pub use day_file::{Cut, DayFile};
pub use sources::{ReadFault, Source};
