//! What a dispatcher leaves when it ends.
ghost use Rattle.std.specs.Prelude.{◌≡◌, count_by, false, slice_index_or};

use crate::{Dispatcher, Seat};
use std::alloc::{Allocator, Global};
use std::marker::Model;

/// The tasks that were marked. Contracts see a flag for each task.
#[derive(Drop)]
pub struct Marks<A: Allocator = Global> {
    pub(crate) flags: Vec<bool, A>,
}

impl<A: Allocator> Model for Marks<A> {
    ghost use Rattle.std.specs.Prelude.{List, Bool};

    ghost Value = { List Bool };

    ghost view = { λ m. m.flags.items };
}

impl<A: Allocator> Marks<A> {
    /// Whether some seat marked the task. It is false of a number past the last task.
    pub fn holds(&self, task: u32) -> bool
        ensures { result ≡ slice_index_or self.now task false }
    {
        self.flags.get(task as usize).copied().unwrap_or(false)
    }

    /// How many tasks are marked, at most `MOST_TASKS`.
    pub fn count(&self) -> usize
        ensures { result ≡ count_by (λ flag. flag) self.now }
    {
        self.flags.iter().filter(|flag| **flag).count()
    }
}

/// What all seats of a dispatcher did.
#[derive(Drop)]
pub struct Tally<A: Allocator = Global> {
    /// How many claims were made, those that found no task among them.
    pub claims: u64,
    pub marks: Marks<A>,
}

/// There was no memory for the marks. The dispatcher and its seats come back, and can be settled again.
#[derive(Drop)]
pub struct SettleRefused<A: Allocator = Global> {
    pub dispatcher: Dispatcher<A>,
    pub seats: Vec<Seat, A>,
}
