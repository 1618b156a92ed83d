//! The dispatcher, which threads share by reference or in an `Arc`.
ghost use Rattle.std.specs.Prelude.{◌≡◌, ◌+◌, ◌<◌, ◌≤◌};
ghost use Rattle.base.specs.declared.limits.TheConstants.{MOST_TASKS, MOST_SEATS};

use crate::rule::{EachOnce, Size, View};
use atomic_table::Table;
use std::alloc::{Allocator, Global};

mod claiming;
mod make;
mod marking;
mod settle;

pub use claiming::Claim;

/// Deals each task at most twice, and notes which tasks are done. Contracts see its numbers of tasks and of seats.
#[derive(Drop)]
pub struct Dispatcher<A: Allocator = Global> {
    pub(crate) table: Table<(), View, Size, EachOnce, A>,
    pub(crate) tasks: u32,
    pub(crate) seats: u32,
    pub(crate) alloc: A,
    ghost shape: { (table.shared.table_id.words ≡ tasks + 1) × (table.shared.table_id.slots ≡ 0) },
    ghost size: { (table.shared.key.tasks ≡ tasks) × (table.shared.key.seats ≡ seats) },
    ghost in_range: { (0 < tasks) × (tasks ≤ MOST_TASKS) × (0 < seats) × (seats ≤ MOST_SEATS) },
}
