//! Answers that the caller's thread finds alone. Nothing here waits for another thread.
ghost use Rattle.std.specs.Prelude.{◌≡◌, ℕ, ◌<◌, ◌≤◌, List, false, IfErr, IfOk};
ghost use Rattle.std.specs.Arc.{arc_value};
ghost use Rattle.std.specs.List.{concat};
ghost use Rattle.base.specs.declared.limits.TheConstants.{MOST_PARTITIONS};
ghost use Rattle.answers.specs.Answers.{IsAnswer};
ghost use Rattle.block_scan.specs.Blocks.{GaveWhole, IsBlocksFault, of_blocks};
ghost use Rattle.runs.specs.Made.{IsOutcomeOf, IsReady, told};
ghost use Rattle.runs.specs.Runs.{IsAnsweredOrRefused, Ran, is_write_failed};

use crate::OutOfMemory;
use crate::calls::block_link::{BlockLink, found_or_fault};
use crate::calls::ends::{made_of_fault, query_of};
use crate::calls::made::{Made, made_of};
use block_scan::{BlockSource, Division, SourceFault, block_inputs};
use day_file::Cut;
use order_table::greatest_prime;
use outcomes::{RunFault, Settings};
use pipelines::{FreeGate, Gate, Outcome, run_alone};
use planning::{BucketTotal, DayPlan, PlanLink};
use query::Query;
use scanning::{WrongLength, scan_inputs};
use sinks::Sink;
use std::alloc::Global;
use std::sync::Arc;

/// Answers a query over a whole day file that is read at places, as `run_blocks` does, on the caller's thread alone:
/// it reads the file from its start to its end, once, as one block. The crew and the morsel of the settings have no
/// part in it. It has no handle to wait by, so it is proved to return if the calls of its source and its sink do.
pub fn run_blocks_alone<S: BlockSource + Send + Sync, K: Sink>(
    alloc: Global,
    source: S,
    query_text: &str,
    mut settings: Settings,
    sink: &mut K,
) -> Result<(), RunFault>
    requires { K.has_failed sink.old ≡ false }
    ensures ran { Ran (of_blocks S.BlockSource.own settings.limit source)
        K.Sink query_text.now settings.limit sink.old sink.new result }
    ensures write_failed { K.has_failed sink.new ≡ is_write_failed result }
{
    let query = query_of(alloc, query_text)?;
    settings.parts = greatest_prime(settings.parts);
    let Ok(source) = Arc::new(alloc, source) else {
        return Err(RunFault::OutOfMemory);
    };
    let made = made_of_block(alloc, &source, &query, settings, &FreeGate)?;
    made.hand_over_alone(alloc, sink)
}

/// What comes of a query over a cut day file, on the caller's thread alone: each morsel and each of `parts` partitions,
/// from 1 to 256, is run once, in order. It is refused if memory was refused to it.
pub fn made_alone<G: Gate>(
    alloc: Global,
    cut: &Cut,
    query: &Query,
    parts: u32,
    gate: &G,
) -> Result<Made, OutOfMemory>
    requires parts { (0 < parts) × (parts ≤ MOST_PARTITIONS) }
    ensures answers { IfOk result (λ made. IsAnswer (concat cut.now) query.now (told made)) }
    ensures ready { IfOk result IsReady }
{
    let inputs = scan_inputs(alloc, cut, query.as_of, parts)?;
    let link = PlanLink::new(query, parts);
    let outcome = run_alone(alloc, &inputs, &link, gate)?;
    Ok(made_of(query, outcome, 0))
}

/// What comes of a query over all that a source gives at places, on the caller's thread alone: as one block. No thread
/// is started, and nothing is waited for.
pub fn made_of_block<G: Gate, S: BlockSource + Send + Sync>(
    alloc: Global,
    source: &Arc<S, Global>,
    query: &Query,
    settings: Settings,
    gate: &G,
) -> Result<Made, RunFault>
    ensures answered { IsAnsweredOrRefused told
        (of_blocks S.BlockSource.own settings.limit (arc_value source.now)) query.now settings.limit result }
    ensures ready { IfOk result IsReady }
{
    match outcome_of_block(alloc, source, query, settings, gate) {
        Ok(outcome) => Ok(made_of(query, outcome, 0)),
        Err(fault) => made_of_fault(fault, settings.limit),
    }
}

/// What both pipelines give over a source that is one block, or why it gives no rows.
fn outcome_of_block<G: Gate, S: BlockSource + Send + Sync>(
    alloc: Global,
    source: &Arc<S, Global>,
    query: &Query,
    settings: Settings,
    gate: &G,
) -> Result<Outcome<BucketTotal, DayPlan, WrongLength>, SourceFault>
    ensures outcome { IfOk result (λ outcome. (runs : List (List ℕ))
        × GaveWhole S.BlockSource.own settings.limit (arc_value source.now) (concat runs)
        × IsOutcomeOf query.now outcome runs) }
    ensures fault { IfErr result (IsBlocksFault S.BlockSource.own (arc_value source.now) settings.limit) }
{
    let limit = settings.limit;
    let parts = settings.parts;
    let inputs = block_inputs(alloc, source, query.as_of, parts, limit, Division::of(0, 1))?;
    let plan = PlanLink::new(query, parts);
    let link = BlockLink { plan };
    found_or_fault(run_alone(alloc, &inputs, &link, gate)?)
}
