//! The law of what the pipelines of a cut give. It is the contract of a function that does nothing.
ghost use Rattle.std.specs.Prelude.{◌≡◌, ℕ, List, length};
ghost use Rattle.row_types.specs.declared.directory.DirectoryRow.{DirectoryRow as TheDirectoryRow};
ghost use Rattle.meaning.specs.Meaning.{Meaning};
ghost use Rattle.pipelines.specs.Outcomes.{IsOutcome};
ghost use Rattle.pipelines.specs.declared.outcome.Outcome.{Outcome as TheOutcome};
ghost use Rattle.schedules.specs.Rehearsals.{IsRehearsed};
ghost use Rattle.schedules.specs.declared.event.Event.{Event as TheEvent};
ghost use Rattle.schedules.specs.declared.rehearsed.Rehearsed.{Rehearsed as TheRehearsed};
ghost use Rattle.scanning.specs.Scans.{inputs_of};
ghost use Rattle.scanning.specs.declared.wrong.WrongLength.{WrongLength as TheWrongLength};
ghost use Rattle.buckets.specs.FoundRows.{TotalView};
ghost use Rattle.executor.specs.Outcomes.{GaveTheSame};

use gathering::{Link, Work};
use planning::{BucketWork, PlanLink};
use scanning::ScanWork;

/// The two pipelines of a cut, for one query and number of partitions, have one outcome: the same total of all
/// partitions, and the same names, or the same wrong length. Whichever crew runs them, and whatever its threads do
/// (`run_pair`, as `answer` runs it), two outcomes are equal; and by whichever schedules (`rehearse_pair`, as
/// `rehearse` runs it), if no task is missing, what comes is that outcome. The premises are what these calls promise.
pub fn one_outcome_of_a_cut<'a>()
    ensures threads { let scan = ⟦<ScanWork as Work>⟧ in let bucket = ⟦<BucketWork as Work>⟧ in
        let plan = ⟦<PlanLink<'a> as Link<ScanWork, BucketWork>>⟧ in
        (query : Meaning) (parts : ℕ) (runs : List (List ℕ))
        (one other : TheOutcome TotalView (List TheDirectoryRow) TheWrongLength) →
        IsOutcome (scan.IsTotalOf (inputs_of query.as_of parts runs))
        (plan.Links (record { query = query; parts = parts })) bucket.IsTotalOf one →
        IsOutcome (scan.IsTotalOf (inputs_of query.as_of parts runs))
        (plan.Links (record { query = query; parts = parts })) bucket.IsTotalOf other → one ≡ other }
    ensures schedules { let scan = ⟦<ScanWork as Work>⟧ in let bucket = ⟦<BucketWork as Work>⟧ in
        let plan = ⟦<PlanLink<'a> as Link<ScanWork, BucketWork>>⟧ in
        (query : Meaning) (parts : ℕ) (runs : List (List ℕ)) (gatherers : ℕ) (events1 events2 : List TheEvent)
        (outcome : TheOutcome TotalView (List TheDirectoryRow) TheWrongLength)
        (rehearsed : TheRehearsed TotalView (List TheDirectoryRow) TheWrongLength) →
        let inputs = inputs_of query.as_of parts runs in
        IsOutcome (scan.IsTotalOf inputs)
        (plan.Links (record { query = query; parts = parts })) bucket.IsTotalOf outcome →
        IsRehearsed (length inputs) (scan.IsTotalOf inputs)
        (plan.Links (record { query = query; parts = parts })) bucket.IsTotalOf
        gatherers events1 events2 rehearsed → GaveTheSame rehearsed outcome }
{}
