//! Laws of rehearsals. Each is the contract of a function that does nothing.
ghost use Rattle.std.specs.Prelude.{◌≡◌, ◌<◌, ℕ, List, length, true, Result, Some};
ghost use Rattle.std.specs.List.{concat};
ghost use Rattle.outcomes.specs.declared.day_fault.DayFault.{DayFault as TheDayFault};
ghost use Rattle.meaning.specs.Meaning.{Meaning};
ghost use Rattle.schedules.specs.Schedules.{has_arrived};
ghost use Rattle.schedules.specs.declared.event.Event.{Event as TheEvent};
ghost use Rattle.answers.specs.Answers.{IsAnswer};
ghost use Rattle.block_scan.specs.Blocks.{FileView, of_blocks};
ghost use Rattle.runs.specs.Runs.{IsAnswered};
ghost use Rattle.executor.specs.Rehearsals.{IsFinished, IsRehearsed, Tells, TellTheSame, each_once};
ghost use Rattle.executor.specs.declared.rehearsing.Rehearsal.{Rehearsal as TheRehearsal};

use runs::{BlockSource, FileBlocks, ReadsAt};

/// One answer of each day and query, whichever way it is found: by one thread (`plain`), by threads over any cut of
/// the day (`answer`), by threads over a file that holds its bytes (`answer_blocks`), and by any two schedules over
/// any cut, with pieces that are repeated, lost, reordered and merged, once each task of both pipelines has arrived
/// (`rehearse`). The premises on `plain`, `answer`, `blocks` and `rehearsed` are what these calls promise, whatever
/// the crew.
pub fn schedules_and_threads_agree<F: ReadsAt>()
    ensures { let device = ⟦<FileBlocks<F> as BlockSource>⟧ in
        (day : List ℕ) (query : Meaning) (plain answer blocks : Result (List ℕ) TheDayFault)
        (cut : List (List ℕ)) (limit : ℕ) (file : FileView)
        (runs : List (List ℕ)) (parts gatherers : ℕ) (events1 events2 : List TheEvent) (rehearsed : TheRehearsal) →
        IsAnswer day query plain →
        concat cut ≡ day → IsAnswer (concat cut) query answer →
        file.contents ≡ Some day → IsAnswered (of_blocks
        (record { GaveAt = device.GaveAt; EndsAt = device.EndsAt; FailsAt = device.FailsAt }) limit file) query blocks →
        concat runs ≡ day → IsRehearsed runs query parts gatherers events1 events2 rehearsed →
        ((task : ℕ) → task < length runs → has_arrived gatherers events1 task ≡ true) →
        ((task : ℕ) → task < parts → has_arrived gatherers events2 task ≡ true) →
        (answer ≡ plain) × (blocks ≡ plain) × Tells rehearsed plain }
{}

/// Over one cut, for one query, by the same schedules, all rehearsals give the same.
pub fn one_rehearsal()
    ensures { (runs : List (List ℕ)) (query : Meaning) (parts gatherers : ℕ) (events1 events2 : List TheEvent)
        (one other : TheRehearsal) →
        IsRehearsed runs query parts gatherers events1 events2 one →
        IsRehearsed runs query parts gatherers events1 events2 other → TellTheSame one other }
{}

/// Once each task of both pipelines has arrived, at whichever gatherers, in whichever order and however often, a
/// rehearsal has the answer.
pub fn all_arrived_answers()
    ensures { (runs : List (List ℕ)) (query : Meaning) (parts gatherers : ℕ) (events1 events2 : List TheEvent)
        (rehearsal : TheRehearsal) →
        IsRehearsed runs query parts gatherers events1 events2 rehearsal →
        ((task : ℕ) → task < length runs → has_arrived gatherers events1 task ≡ true) →
        ((task : ℕ) → task < parts → has_arrived gatherers events2 task ≡ true) →
        IsFinished (concat runs) query rehearsal }
{}

/// If each task arrives once, in order, at one gatherer, a rehearsal has the answer.
pub fn each_once_answers()
    ensures { (runs : List (List ℕ)) (query : Meaning) (parts : ℕ) (rehearsal : TheRehearsal) →
        IsRehearsed runs query parts 1 (each_once (length runs)) (each_once parts) rehearsal →
        IsFinished (concat runs) query rehearsal }
{}
