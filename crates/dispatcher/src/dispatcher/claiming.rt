//! Claims. A claim is one atomic step: it takes no memory and waits for nobody.
ghost use Rattle.std.specs.Prelude.{◌≡◌, ◌+◌, ◌*◌, ◌<◌, ◌≤◌, ◌++◌, [], ◌∷◌, All};
ghost use Rattle.base.specs.declared.limits.TheConstants.{MOST_SEATS, MOST_TASKS};
ghost use Rattle.dispatcher.specs.Seats.{FitsClaim, IsSameSeat, IsSeatOf, MayClaim, claim_of, claims};
ghost use Rattle.dispatcher.specs.Seats.{marked_tasks, seats_of, seen_tasks, tasks_of};

use super::Dispatcher;
use crate::Seat;
use crate::rule::{CLAIMS_WORD, ClaimStep, CountStep};
use std::alloc::Allocator;

/// The answer to a claim. Each claim of a dispatcher has a number of its own, from 0 on.
#[derive(Clone, Copy, PartialEq, Eq)]
pub enum Claim {
    /// The claim gives the task to the seat: for the first time if the claim is below the number of tasks, and
    /// otherwise for the second time.
    Task { claim: u64, task: u32 },
    /// Each task was given twice. The seat may not claim again.
    NoMore { claim: u64 },
}

impl<A: Allocator> Dispatcher<A> {
    /// Takes the next number of all seats together. A worker that claims until `NoMore` ends, since each number is
    /// greater than the seat's earlier ones.
    pub fn claim(&self, seat: &mut Seat) -> Claim
        requires own { IsSeatOf self.now seat.old }
        requires more { MayClaim (tasks_of self.now) seat.old }
        ensures same { IsSameSeat seat.old seat.new }
        ensures claims { claims seat.new ≡ claims seat.old ++ claim_of result ∷ [] }
        ensures rises { All (λ c. c < claim_of result) (claims seat.old) }
        ensures answer { FitsClaim (tasks_of self.now) result }
        ensures marked { marked_tasks seat.new ≡ marked_tasks seat.old }
        ensures seen { seen_tasks seat.new ≡ seen_tasks seat.old }
    {
        let words = &self.table.shared;
        let number = words.fetch_add::<ClaimStep>(&mut seat.inner, CLAIMS_WORD, 1);
        let tasks = u64::from(self.tasks);
        if number < 2 * tasks {
            Claim::Task {
                claim: number,
                task: (number % tasks) as u32,
            }
        } else {
            Claim::NoMore { claim: number }
        }
    }
    /// How many claims all seats have made so far, in one atomic step: each of the seat's own is below that. A claim
    /// that another seat makes meanwhile may be missed.
    pub fn count_claims(&self, seat: &mut Seat) -> u64
        requires own { IsSeatOf self.now seat.old }
        ensures same { IsSameSeat seat.old seat.new }
        ensures claims { claims seat.new ≡ claims seat.old }
        ensures marked { marked_tasks seat.new ≡ marked_tasks seat.old }
        ensures seen { seen_tasks seat.new ≡ seen_tasks seat.old }
        ensures counted { All (λ c. c < result) (claims seat.old) }
        ensures few { result ≤ 2 * MOST_TASKS + MOST_SEATS }
    {
        let words = &self.table.shared;
        words.load::<CountStep>(&mut seat.inner, CLAIMS_WORD)
    }

    /// The number of its seats, those that were dropped among them.
    pub fn seats(&self) -> u32
        ensures { result ≡ seats_of self.now }
    {
        self.seats
    }

    /// The number of its tasks.
    pub fn tasks(&self) -> u32
        ensures { result ≡ tasks_of self.now }
    {
        self.tasks
    }
}
