//! Laws of schedules. Each is the contract of a function that does nothing.
ghost use Rattle.std.specs.Prelude.{◌≡◌, ℕ, ◌&&◌, nat_lt, List, fold, length, replicate};
ghost use Rattle.std.specs.FinSet.{empty};
ghost use Rattle.std.specs.Option.{option_map_or};
ghost use Rattle.gathering.specs.declared.linked.Linked.{Linked as TheLinked};
ghost use Rattle.schedules.specs.Rehearsals.{IsRehearsed, after_link};
ghost use Rattle.schedules.specs.Schedules.{after, first_left, has_arrived, some_covers};
ghost use Rattle.schedules.specs.declared.event.Event.{Event};
ghost use Rattle.schedules.specs.declared.rehearsed.Rehearsed.{Rehearsed as TheRehearsed};
ghost use Rattle.schedules.specs.declared.rehearsed.Rehearsed.TheVariants.{Missing};

use gathering::{Link, Work};

/// The tasks that have arrived are always those that some gatherer covers, from empty gatherers on.
#[tactic(auto, using(crate::proofs::Schedules::arrived_covers))]
pub fn arrived_tasks_are_covered()
    ensures { (gatherers tasks : ℕ) (events : List Event) (task : ℕ)
        → some_covers (fold (after tasks) (replicate gatherers empty) events) task
        ≡ (nat_lt task tasks && has_arrived gatherers events task) }
{}

/// If each list of inputs has one total and that of the first inputs is linked to one thing, two schedules have one
/// answer.
#[tactic(auto, using(crate::proofs::OneRehearsed::one_rehearsed))]
pub fn functions_have_one_rehearsal<A: Work, B: Work, L: Link<A, B>>()
    ensures { (link : L) (inputs : List A.Input) (total_of_first : List A.Input → A.Total)
        (linked : A.Total → TheLinked (List B.Input) L.Kept L.Stop) (total_of : List B.Input → B.Total)
        (gatherers : ℕ) (events1 events2 : List Event) (rehearsed : TheRehearsed B.Total L.Kept L.Stop) →
        ((first : A.Total) → A.IsTotalOf inputs first → first ≡ total_of_first inputs) →
        ((first : A.Total) (l : TheLinked (List B.Input) L.Kept L.Stop) → A.IsTotalOf inputs first →
        L.Links link first l → l ≡ linked first) →
        ((seconds : List B.Input) (total : B.Total) → B.IsTotalOf seconds total → total ≡ total_of seconds) →
        IsRehearsed (length inputs) (A.IsTotalOf inputs) (L.Links link) B.IsTotalOf
        gatherers events1 events2 rehearsed →
        rehearsed ≡ option_map_or (λ task. Missing 1 task) (first_left gatherers (length inputs) events1)
        (after_link total_of gatherers events2 (linked (total_of_first inputs))) }
{}
