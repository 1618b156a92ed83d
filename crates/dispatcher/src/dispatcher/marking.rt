//! Marks. A mark and a look are one atomic step each: they take no memory and wait for nobody.
ghost use Rattle.std.specs.Prelude.{◌≡◌, ◌<◌, ◌++◌, [], ◌∷◌, Contains, IsFalse, MatchBool};
ghost use Rattle.dispatcher.specs.Seats.{IsSameSeat, IsSeatOf, WasGiven, claims};
ghost use Rattle.dispatcher.specs.Seats.{marked_tasks, seen_tasks, tasks_of};

use super::Dispatcher;
use crate::Seat;
use crate::rule::{LookStep, MarkStep, mark_word};
use std::alloc::Allocator;

impl<A: Allocator> Dispatcher<A> {
    /// Marks a task as done, which one of the seat's claims gave. Other seats see it at some later look.
    pub fn mark(&self, seat: &mut Seat, task: u32)
        requires own { IsSeatOf self.now seat.old }
        requires given { WasGiven (tasks_of self.now) seat.old task }
        ensures same { IsSameSeat seat.old seat.new }
        ensures claims { claims seat.new ≡ claims seat.old }
        ensures marked { marked_tasks seat.new ≡ marked_tasks seat.old ++ task ∷ [] }
        ensures seen { seen_tasks seat.new ≡ seen_tasks seat.old ++ task ∷ [] }
    {
        let words = &self.table.shared;
        words.fetch_or::<MarkStep>(&mut seat.inner, mark_word(task), 1);
    }

    /// Looks whether some seat marked the task: true of each task that this seat marked, or saw marked, before. A
    /// mark that another seat makes meanwhile may be missed.
    pub fn is_marked(&self, seat: &mut Seat, task: u32) -> bool
        requires own { IsSeatOf self.now seat.old }
        requires task { task < tasks_of self.now }
        ensures same { IsSameSeat seat.old seat.new }
        ensures claims { claims seat.new ≡ claims seat.old }
        ensures marked { marked_tasks seat.new ≡ marked_tasks seat.old }
        ensures seen { MatchBool result
            (seen_tasks seat.new ≡ seen_tasks seat.old ++ task ∷ [])
            (seen_tasks seat.new ≡ seen_tasks seat.old) }
        ensures unseen { IsFalse result → ¬ Contains (seen_tasks seat.old) task }
    {
        let words = &self.table.shared;
        words.load::<LookStep>(&mut seat.inner, mark_word(task)) == 1
    }
}
