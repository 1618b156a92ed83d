//! The end of a dispatcher: what all its seats did.
ghost use Rattle.std.specs.Prelude.{◌≡◌, ℕ, ◌+◌, ◌*◌, ◌<◌, ◌≤◌, ◌==◌, ◌↔◌, [], false, All, Any, Contains, IfErr, IfOk};
ghost use Rattle.std.specs.Prelude.{IsPermutation, IsTrue, flat_map, length, slice_index, slice_index_or, sum_by};
ghost use Rattle.std.specs.List.{range_with_len};
ghost use Rattle.std.specs.Mem.Slots.{slots_items, slots_len, IsFull};
ghost use Rattle.dispatcher.specs.Rule.{joined_view};
ghost use Rattle.dispatcher.specs.Seats.{IsSeatOf, claims, marked_tasks, seats_of, seen_tasks, tasks_of, times_given};
ghost use Rattle.dispatcher.specs.declared.rule.View.{View as TheView};

use super::Dispatcher;
use crate::rule::{CLAIMS_WORD, EachOnce, SeatJoin, Size, View, mark_word};
use crate::{Marks, OutOfMemory, Seat, SettleRefused, Tally};
use atomic_table::{Closed, Shared};
use std::alloc::Allocator;

impl<A: Allocator + Clone> Dispatcher<A> {
    /// Ends the dispatcher, with all its seats in any order. It takes memory for the marks first, a byte a task, and
    /// is refused if there is none, before anything changed.
    pub fn settle(self, seats: Vec<Seat, A>) -> Result<Tally<A>, SettleRefused<A>>
        requires own { All (IsSeatOf self) seats.items }
        requires all { length seats.items ≡ seats_of self }

        // The claims of the seats together are the numbers from 0 on, each once.
        ensures claims { IfOk result (λ t.
            IsPermutation (flat_map claims seats.items) (range_with_len 0 t.claims)) }
        ensures few { IfOk result (λ t. t.claims ≤ 2 * tasks_of self + seats_of self) }
        ensures twice { IfOk result (λ _. (task : ℕ)
            → times_given (tasks_of self) task (flat_map claims seats.items) ≤ 2) }

        // A flag for each task, which is set if and only if some seat marked the task.
        ensures flags { IfOk result (λ t. length t.marks ≡ tasks_of self) }
        ensures marks { IfOk result (λ t. (task : ℕ) → IsTrue (slice_index_or t.marks task false)
            ↔ Any (λ s. Contains (marked_tasks s) task) seats.items) }
        ensures seen { IfOk result (λ t. (task : ℕ) → Any (λ s. Contains (seen_tasks s) task) seats.items
            → IsTrue (slice_index_or t.marks task false)) }

        ensures dispatcher_back { IfErr result (λ r. r.dispatcher ≡ self) }
        ensures seats_back { IfErr result (λ r. r.seats ≡ seats) }
    {
        let Ok(mut flags) = unmarked(&self.alloc, self.tasks) else {
            return Err(SettleRefused {
                dispatcher: self,
                seats,
            });
        };
        let Dispatcher { table, tasks, .. } = self;
        let all = gather(&table.shared, seats);
        let closed = table.close_with(all);
        let count = closed.word(CLAIMS_WORD);
        read_marks(&closed, &mut flags, tasks);
        closed.free();
        Ok(Tally {
            claims: count,
            marks: Marks { flags },
        })
    }
}

/// A flag for each task, none of them set.
fn unmarked<A: Allocator + Clone>(alloc: &A, tasks: u32) -> Result<Vec<bool, A>, OutOfMemory>
    ensures { IfOk result (λ flags. length flags.items ≡ tasks) }
{
    vec![in alloc.clone()?; false; tasks as usize]
}

/// One seat that stands for all.
fn gather<A: Allocator>(
    shared: &Shared<(), View, Size, EachOnce>,
    mut seats: Vec<Seat, A>,
) -> atomic_table::Seat<(), View>
    requires own { All (λ s. s.inner.table_id ≡ shared.now.table_id) seats.items }
    requires some { (0 < length seats.items) × (0 < shared.now.table_id.words) }
    ensures own { (result.table_id ≡ shared.now.table_id) × (result.me.1 ≡ []) }
    ensures seats { length result.me.0.numbers ≡ length seats.items }
    // Of whatever adds up when views are joined it has what all have.
    ensures sums { (f : TheView → ℕ) → ((a b : TheView) → f (joined_view a b) ≡ f a + f b)
        → f result.me.0 ≡ sum_by (λ s. f s.inner.me.0) seats.items }
{
    let Seat { inner: mut all } = seats.pop().unwrap();
    while let Some(seat) = seats.pop() {
        let Seat { inner } = seat;
        shared.join_seat::<SeatJoin>(&mut all, inner);
    }
    all
}

/// Sets the flag of each task whose word is set.
fn read_marks<A: Allocator>(closed: &Closed<(), A>, flags: &mut Vec<bool, A>, tasks: u32)
    requires full { IsFull closed.now.words }
    requires words { slots_len closed.now.words ≡ tasks + 1 }
    requires tasks { length flags.old.items ≡ tasks }
    ensures len { length flags.new.items ≡ length flags.old.items }
    ensures flags { (t : ℕ) → t < length flags.old.items
        → slice_index_or flags.new.items t false
        ≡ (slice_index (slots_items closed.now.words) (t + 1) == 1) }
{
    for task in 0..tasks {
        flags[task as usize] = closed.word(mark_word(task)) == 1;
    }
}
