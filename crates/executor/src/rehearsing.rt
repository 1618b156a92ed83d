//! Both pipelines by events, on one thread.
ghost use Rattle.std.specs.Prelude.{◌<◌, ◌≤◌, IfOk};
ghost use Rattle.base.specs.declared.limits.TheConstants.{MOST_PARTITIONS};
ghost use Rattle.executor.specs.Rehearsals.{IsRehearsed};

use crate::OutOfMemory;
use crate::answering_cuts::{answer_of_total, told_of};
use answers::Answer;
use day_file::Cut;
use planning::PlanLink;
use query::Query;
use scanning::scan_inputs;
use schedules::{Event, Rehearsed, rehearse_pair};
use std::alloc::Global;
use std::sync::Arc;

/// What a rehearsal gives.
#[derive(Drop)]
pub enum Rehearsal {
    /// The answer to the query over the file that was cut.
    Finished(Answer),
    /// The first task of the pipeline, which is 1 or 2, that has not arrived.
    Missing { pipeline: u8, task: u32 },
}

/// Answers a query over a cut day file as threads would, on this thread alone: by two pipelines with `gatherers`
/// gatherers each, from 1 to 64, in which pieces arrive, are repeated, lost and merged as the events say. The first
/// pipeline has a task for each morsel; the second, which doesn't run if a wrong length was found, has one for each of
/// `parts` partitions, from 1 to 256. It is refused if memory was refused to it.
pub fn rehearse(
    alloc: Global,
    cut: &Cut,
    query: &Query,
    parts: u32,
    gatherers: u32,
    events1: &[Event],
    events2: &[Event],
) -> Result<Rehearsal, OutOfMemory>
    requires parts { (0 < parts) × (parts ≤ MOST_PARTITIONS) }
    requires gatherers { (0 < gatherers) × (gatherers ≤ 64) }
    ensures { IfOk result (λ rehearsal.
        IsRehearsed cut.now query.now parts gatherers events1.now events2.now rehearsal) }
{
    let inputs = Arc::new(alloc, scan_inputs(alloc, cut, query.as_of, parts)?)?;
    let link = PlanLink::new(query, parts);
    match rehearse_pair(alloc, inputs, &link, gatherers, events1, events2)? {
        Rehearsed::Finished { total, kept } => {
            let answer = answer_of_total(alloc, query, total, kept)?;
            Ok(Rehearsal::Finished(answer))
        }
        Rehearsed::Stopped { stop } => Ok(Rehearsal::Finished(told_of(stop))),
        Rehearsed::Missing { pipeline, task } => Ok(Rehearsal::Missing { pipeline, task }),
    }
}
