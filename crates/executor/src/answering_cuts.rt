//! Answers to a query over a day that is cut already: `answer` on threads, `answer_alone` on the caller's.
ghost use Rattle.std.specs.Prelude.{◌≡◌, List, ◌<◌, ◌≤◌, Err, IfOk};
ghost use Rattle.std.specs.List.{concat};
ghost use Rattle.base.specs.declared.limits.TheConstants.{MOST_PARTITIONS};
ghost use Rattle.answers.specs.Answers.{IsAnswer, IsAnswerToMessages, told_by};
ghost use Rattle.day_rows.specs.Messages.{Placed};
ghost use Rattle.planning.specs.AllBuckets.{AreGatheredOf};

use crate::OutOfMemory;
use crate::keeping_texts::{into_answer, into_answer_alone};
use answers::{Answer, DayFault};
use day_file::Cut;
use pipelines::{Crew, Gate, run_pair};
use planning::{BucketTotal, DayPlan, PlanLink};
use query::Query;
use runs::{fault_of_length, made_alone, made_of, made_of_total};
use scanning::{WrongLength, scan_inputs};
use std::alloc::Global;
use std::sync::{Arc, Wait};
use std::thread::Threads;

/// Answers a query over a cut day file on threads: by two pipelines, each with the crew's workers.
/// The first has a task for each morsel; the second, which doesn't run if a wrong length was found,
/// has one for each of `parts` partitions, from 1 to 256. Neither the crew nor the gate, the cut or the
/// partitions change the answer.
///
/// It waits for its threads. It is refused if memory was refused to the caller's thread.
pub fn answer<G: Gate, R: Threads + Wait + Sync>(
    rt: &R,
    alloc: Global,
    cut: &Cut,
    query: &Query,
    parts: u32,
    crew: Crew,
    gate: &G,
) -> Result<Answer, OutOfMemory>
    requires parts { (0 < parts) × (parts ≤ MOST_PARTITIONS) }
    ensures { IfOk result (λ answer. IsAnswer (concat cut.now) query.now (told_by answer)) }
{
    let scans = scan_inputs(alloc, cut, query.as_of, parts)?;
    let inputs = Arc::new(alloc, scans)?;
    let link = PlanLink::new(query, parts);
    let outcome = run_pair(rt, alloc, inputs, &link, crew, gate)?;
    let made = made_of(query, outcome, crew.workers);
    into_answer(rt, alloc, made)
}

/// Answers a query over a cut day file, as `answer` does, on the caller's thread alone: each morsel and each partition
/// is run once, in order. No thread is started, and nothing is waited for.
pub fn answer_alone<G: Gate>(
    alloc: Global,
    cut: &Cut,
    query: &Query,
    parts: u32,
    gate: &G,
) -> Result<Answer, OutOfMemory>
    requires parts { (0 < parts) × (parts ≤ MOST_PARTITIONS) }
    ensures { IfOk result (λ answer. IsAnswer (concat cut.now) query.now (told_by answer)) }
{
    let made = made_alone(alloc, cut, query, parts, gate)?;
    into_answer_alone(alloc, made)
}

/// The answer that the total of all buckets gives, on the caller's thread alone.
pub(crate) fn answer_of_total(
    alloc: Global,
    query: &Query,
    total: BucketTotal,
    kept: DayPlan,
) -> Result<Answer, OutOfMemory>
    requires gathered { (messages : List Placed) × AreGatheredOf query.now total kept messages }
    ensures { IfOk result (λ answer. (messages : List Placed) → AreGatheredOf query.now total kept messages →
        IsAnswerToMessages messages query.now (told_by answer)) }
{
    let made = made_of_total(query, total, kept, 0);
    into_answer_alone(alloc, made)
}

/// What is reported of a wrong length that the first pipeline found.
pub(crate) fn told_of(wrong: WrongLength) -> Answer
    ensures { told_by result ≡ Err (DayFault.WrongLength
        wrong.place wrong.fault.kind wrong.fault.length wrong.fault.wanted) }
{
    Answer::Faulty(fault_of_length(wrong))
}
