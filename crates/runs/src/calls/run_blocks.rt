//! `run_blocks`: a query over a source that is read at places, to a sink.
ghost use Rattle.std.specs.Prelude.{◌≡◌, ℕ, List, false, IfErr, IfOk, OnOk};
ghost use Rattle.std.specs.Arc.{arc_value};
ghost use Rattle.std.specs.List.{concat};
ghost use Rattle.block_scan.specs.Blocks.{GaveWhole, IsBlocksFault, of_blocks};
ghost use Rattle.runs.specs.Made.{IsOutcomeOf, IsReady, told};
ghost use Rattle.runs.specs.Runs.{IsAnsweredOrRefused, Ran, is_write_failed};

use crate::calls::alone::run_blocks_alone;
use crate::calls::block_link::{BlockLink, found_or_fault};
use crate::calls::ends::{made_of_fault, query_of};
use crate::calls::made::{Made, made_of};
use block_scan::{
    BlockSource, Division, Knowledge, NewWatch, SourceFault, Watch, WatchName, Watched,
    block_inputs,
};
use order_table::greatest_prime;
use outcomes::{RunFault, Settings};
use pipelines::{FreeGate, Gate, Outcome, run_pair};
use planning::{BucketTotal, DayPlan, PlanLink};
use query::Query;
use scanning::WrongLength;
use sinks::Sink;
use std::alloc::Global;
use std::marker::Brand;
use std::sync::{Arc, Wait};
use std::thread::Threads;

/// Answers a query over a whole day file that is read at places, as `run` does over one that is
/// read in order: its blocks are the tasks of the first pipeline, and their bytes are not kept. The
/// answer is that to the bytes that were read; some are read more than once, and then those of one
/// reading count. `length` is how many bytes the file is expected to have: it only affects speed,
/// and the crew only speed and memory. The morsel of the settings has no part in it.
///
/// Nothing is written until only the sink can still refuse. It waits for the threads.
pub fn run_blocks<R: Threads + Wait + Sync, S: BlockSource + Send + Sync, K: Sink>(
    rt: &R,
    alloc: Global,
    source: S,
    length: u64,
    query_text: &str,
    mut settings: Settings,
    sink: &mut K,
) -> Result<(), RunFault>
    requires { K.has_failed sink.old ≡ false }
    ensures ran { Ran (of_blocks S.BlockSource.own settings.limit source)
        K.Sink query_text.now settings.limit sink.old sink.new result }
    ensures write_failed { K.has_failed sink.new ≡ is_write_failed result }
{
    let division = Division::of(length, settings.crew.workers);
    if division.blocks == 1 {
        return run_blocks_alone(alloc, source, query_text, settings, sink);
    }
    let query = query_of(alloc, query_text)?;
    settings.parts = greatest_prime(settings.parts);
    let Ok(source) = Arc::new(alloc, source) else {
        return Err(RunFault::OutOfMemory);
    };
    let made = made_in_blocks(rt, alloc, &source, division, &query, settings, &FreeGate)?;
    made.hand_over(rt, alloc, sink)
}

/// What comes of a query over all that a source gives at places: the first pipeline has a task for each block of the
/// division. It waits for its threads. A reading that fails is reported, even if another one of its block's didn't.
pub fn made_in_blocks<G: Gate, R: Threads + Wait + Sync, S: BlockSource + Send + Sync>(
    rt: &R,
    alloc: Global,
    source: &Arc<S, Global>,
    division: Division,
    query: &Query,
    settings: Settings,
    gate: &G,
) -> Result<Made, RunFault>
    ensures answered { IsAnsweredOrRefused told
        (of_blocks S.BlockSource.own settings.limit (arc_value source.now)) query.now settings.limit result }
    ensures ready { IfOk result IsReady }
{
    let Ok(source) = Arc::try_clone(source) else {
        return Err(RunFault::OutOfMemory);
    };
    let watch = NewWatch::over(source);
    let outcome = outcome_of_named::<Brand, G, R, S>(
        rt, alloc, watch, division, query, settings, gate,
    );
    let outcome = match outcome {
        Ok(outcome) => outcome,
        Err(fault) => return made_of_fault(fault, settings.limit),
    };
    Ok(made_of(query, outcome, settings.crew.workers))
}

/// What both pipelines give over the blocks of a source that is watched, or why it gives no rows.
fn outcome_of_named<
    J: WatchName + Send + Sync,
    G: Gate,
    R: Threads + Wait + Sync,
    S: BlockSource + Send + Sync,
>(
    rt: &R,
    alloc: Global,
    watch: NewWatch<S>,
    division: Division,
    query: &Query,
    settings: Settings,
    gate: &G,
) -> Result<Outcome<BucketTotal, DayPlan, WrongLength>, SourceFault>
    requires name { watch.book ≡ J.book }
    ensures outcome { IfOk result (λ outcome. (runs : List (List ℕ))
        × GaveWhole S.BlockSource.own settings.limit watch.source (concat runs)
        × IsOutcomeOf query.now outcome runs) }
    ensures fault { IfErr result (IsBlocksFault S.BlockSource.own watch.source settings.limit) }
{
    let watch = watch.named::<J>();
    let known = watch.nothing_known();
    outcome_of_watched(rt, alloc, watch, &known, division, query, settings, gate)
}

/// The same. The source is read under the watch alone, which is asked when all readings have ended: it is
/// taken, and they borrow it. Whoever knows of one that failed gets no outcome.
fn outcome_of_watched<
    J: WatchName + Send + Sync,
    G: Gate,
    R: Threads + Wait + Sync,
    S: BlockSource + Send + Sync,
>(
    rt: &R,
    alloc: Global,
    watch: Watch<S, J>,
    known: &Knowledge<S, J>,
    division: Division,
    query: &Query,
    settings: Settings,
    gate: &G,
) -> Result<Outcome<BucketTotal, DayPlan, WrongLength>, SourceFault>
    ensures outcome { IfOk result (λ outcome. (runs : List (List ℕ))
        × GaveWhole S.BlockSource.own settings.limit watch (concat runs)
        × IsOutcomeOf query.now outcome runs) }
    ensures fault { IfErr result (IsBlocksFault S.BlockSource.own watch settings.limit) }
    ensures told { OnOk result (known.now ≡ false) }
{
    let source = Watched::under(&watch);
    let outcome = outcome_of_blocks(rt, alloc, source, division, query, settings, gate);
    if watch.has_failed(known) {
        return Err(SourceFault::ReadFailed);
    }
    outcome
}

/// What both pipelines give over the blocks of a source, or why it gives no rows.
fn outcome_of_blocks<G: Gate, R: Threads + Wait + Sync, S: BlockSource + Send + Sync>(
    rt: &R,
    alloc: Global,
    source: S,
    division: Division,
    query: &Query,
    settings: Settings,
    gate: &G,
) -> Result<Outcome<BucketTotal, DayPlan, WrongLength>, SourceFault>
    ensures outcome { IfOk result (λ outcome. (runs : List (List ℕ))
        × GaveWhole S.BlockSource.own settings.limit source (concat runs)
        × IsOutcomeOf query.now outcome runs) }
    ensures fault { IfErr result (IsBlocksFault S.BlockSource.own source settings.limit) }
{
    let limit = settings.limit;
    let parts = settings.parts;
    let Ok(source) = Arc::new(alloc, source) else {
        return Err(SourceFault::OutOfMemory);
    };
    let inputs = block_inputs(alloc, &source, query.as_of, parts, limit, division)?;
    let Ok(inputs) = Arc::new(alloc, inputs) else {
        return Err(SourceFault::OutOfMemory);
    };
    let plan = PlanLink::new(query, parts);
    let link = BlockLink { plan };
    let outcome = run_pair(rt, alloc, inputs, &link, settings.crew, gate);
    found_or_fault(outcome?)
}
