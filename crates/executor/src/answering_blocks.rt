//! Answers to a query over a source that is read at places: `answer_blocks` on threads, `answer_blocks_alone` on the
//! caller's.
ghost use Rattle.std.specs.Arc.{arc_value};
ghost use Rattle.answers.specs.Answers.{told_by};
ghost use Rattle.block_scan.specs.Blocks.{of_blocks};
ghost use Rattle.runs.specs.Runs.{IsAnsweredOrRefused};

use crate::keeping_texts::{into_answer, into_answer_alone};
use answers::Answer;
use block_scan::{BlockSource, Division};
use outcomes::{RunFault, Settings};
use pipelines::Gate;
use query::Query;
use runs::{made_in_blocks, made_of_block};
use std::alloc::Global;
use std::sync::{Arc, Wait};
use std::thread::Threads;

/// Answers a query over all that a source gives at places, by two pipelines as `answer` does: the first has a task for
/// each block of the division. Neither the division nor the crew or the gate change the answer.
///
/// It waits for its threads. A reading that fails is reported, even if another one of its block's didn't.
pub fn answer_blocks<G: Gate, R: Threads + Wait + Sync, S: BlockSource + Send + Sync>(
    rt: &R,
    alloc: Global,
    source: &Arc<S, Global>,
    division: Division,
    query: &Query,
    settings: Settings,
    gate: &G,
) -> Result<Answer, RunFault>
    ensures { IsAnsweredOrRefused told_by (of_blocks S.BlockSource.own settings.limit (arc_value source.now))
        query.now settings.limit result }
{
    let made = made_in_blocks(rt, alloc, source, division, query, settings, gate)?;
    let answer = into_answer(rt, alloc, made)?;
    Ok(answer)
}

/// Answers a query over all that a source gives at places, as `answer_blocks` does, on the caller's thread alone: as
/// one block. No thread is started, and nothing is waited for.
pub fn answer_blocks_alone<G: Gate, S: BlockSource + Send + Sync>(
    alloc: Global,
    source: &Arc<S, Global>,
    query: &Query,
    settings: Settings,
    gate: &G,
) -> Result<Answer, RunFault>
    ensures { IsAnsweredOrRefused told_by (of_blocks S.BlockSource.own settings.limit (arc_value source.now))
        query.now settings.limit result }
{
    let made = made_of_block(alloc, source, query, settings, gate)?;
    let answer = into_answer_alone(alloc, made)?;
    Ok(answer)
}
