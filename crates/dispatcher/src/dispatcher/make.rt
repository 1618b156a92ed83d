//! A new dispatcher, and its seats.
ghost use Rattle.std.specs.Prelude.{◌≡◌, ℕ, ◌+◌, ◌-◌, ◌<◌, ◌≤◌, [], All, length, map, IfOk};
ghost use Rattle.std.specs.List.{range_with_len};
ghost use Rattle.base.specs.declared.limits.TheConstants.{MOST_TASKS, MOST_SEATS};
ghost use Rattle.dispatcher.specs.Rule.{unused_view};
ghost use Rattle.dispatcher.specs.Seats.{tasks_of, seats_of, number, IsSeatOf, IsUnused};

use super::Dispatcher;
use crate::rule::{SeatSplit, Size, View};
use crate::{OutOfMemory, Seat};
use atomic_table::Table;
use std::alloc::Allocator;

impl<A: Allocator + Clone> Dispatcher<A> {
    /// A dispatcher of 1 to `MOST_TASKS` tasks and its 1 to `MOST_SEATS` seats, by number. Nothing is claimed or
    /// marked yet. It is refused if there is no memory for a word for each task and one more, or for the list of seats.
    pub fn new(
        alloc: A,
        tasks: u32,
        seats: u32,
    ) -> Result<(Dispatcher<A>, Vec<Seat, A>), OutOfMemory>
        requires tasks { (0 < tasks) × (tasks ≤ MOST_TASKS) }
        requires seats { (0 < seats) × (seats ≤ MOST_SEATS) }
        ensures tasks { IfOk result (λ r. tasks_of r.0 ≡ tasks) }
        ensures seats { IfOk result (λ r. seats_of r.0 ≡ seats) }
        ensures count { IfOk result (λ r. length r.1.items ≡ seats) }
        ensures numbers { IfOk result (λ r. map number r.1.items ≡ range_with_len 0 seats) }
        ensures own { IfOk result (λ r. All (IsSeatOf r.0) r.1.items) }
        ensures unused { IfOk result (λ r. All IsUnused r.1.items) }
    {
        let words = vec![in alloc.clone()?; 0u64; tasks as usize + 1]?;
        let size = Size { tasks, seats };
        let (table, everyone) = Table::of_words(alloc.clone()?, words.as_slice(), &size)?;
        let dispatcher = Dispatcher {
            table,
            tasks,
            seats,
            alloc: alloc.clone()?,
        };
        let list = dispatcher.deal(alloc, everyone)?;
        Ok((dispatcher, list))
    }

    /// The seat that stands for everyone gives each number to a seat of its own.
    fn deal(
        &self,
        alloc: A,
        mut rest: atomic_table::Seat<(), View>,
    ) -> Result<Vec<Seat, A>, OutOfMemory>
        requires own { rest.table_id ≡ self.now.table.shared.table_id }
        requires everyone { rest.me ≡ (unused_view (range_with_len 0 (seats_of self.now)), []) }
        ensures count { IfOk result (λ list. length list.items ≡ seats_of self.now) }
        ensures numbers { IfOk result (λ list. map number list.items ≡ range_with_len 0 (seats_of self.now)) }
        ensures own { IfOk result (λ list. All (IsSeatOf self.now) list.items) }
        ensures unused { IfOk result (λ list. All IsUnused list.items) }
    {
        let mut list = Vec::new(alloc);
        for _ in 0..self.seats {
            let inner = self.table.shared.split_seat::<SeatSplit>(&mut rest);
            list.push(Seat { inner })?;
        }
        Ok(list)
    }
}
