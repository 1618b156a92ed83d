//! A law of outcomes. It is the contract of a function that does nothing.
ghost use Rattle.std.specs.Prelude.{◌≡◌, List};
ghost use Rattle.gathering.specs.declared.linked.Linked.{Linked as TheLinked};
ghost use Rattle.pipelines.specs.Outcomes.{IsOutcome, outcome_of};
ghost use Rattle.pipelines.specs.declared.outcome.Outcome.{Outcome as TheOutcome};

use gathering::{Link, Work};

/// If each list of inputs has one total and that of the first inputs is linked to one thing, there is one outcome.
pub fn functions_have_one_outcome<A: Work, B: Work, L: Link<A, B>>()
    ensures { (link : L) (inputs : List A.Input) (total_of_first : List A.Input → A.Total)
        (linked : A.Total → TheLinked (List B.Input) L.Kept L.Stop) (total_of : List B.Input → B.Total)
        (outcome : TheOutcome B.Total L.Kept L.Stop) →
        ((first : A.Total) → A.IsTotalOf inputs first → first ≡ total_of_first inputs) →
        ((first : A.Total) (l : TheLinked (List B.Input) L.Kept L.Stop) → A.IsTotalOf inputs first →
        L.Links link first l → l ≡ linked first) →
        ((seconds : List B.Input) (total : B.Total) → B.IsTotalOf seconds total → total ≡ total_of seconds) →
        IsOutcome (A.IsTotalOf inputs) (L.Links link) B.IsTotalOf outcome →
        outcome ≡ outcome_of total_of (linked (total_of_first inputs)) }
{}
