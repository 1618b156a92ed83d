//! `run`: a query over a source, to a sink.
ghost use Rattle.std.specs.Prelude.{◌≡◌, IfOk, false};
ghost use Rattle.streaming.specs.Readings.{of_stream};
ghost use Rattle.runs.specs.Made.{IsReady, told};
ghost use Rattle.runs.specs.Runs.{IsAnsweredOrRefused, Ran, is_read_failed, is_write_failed};

use crate::calls::alone::made_alone;
use crate::calls::ends::{made_of_fault, query_of};
use crate::calls::made::{Made, made_of};
use order_table::greatest_prime;
use outcomes::{RunFault, Settings};
use pipelines::{FreeGate, run_second};
use planning::PlanLink;
use query::Query;
use sinks::Sink;
use std::alloc::Global;
use std::sync::Wait;
use std::thread::Threads;
use streaming::{Source, WholeSource, scan_source};

/// Reads a whole day file from a source, batch by batch, and cuts it into morsels, which threads scan while the next
/// batch is read. Threads then find the answer to the query, which is written to a sink. Nothing is written until only
/// the sink can still refuse. After a refusal the source may have been read in part. It waits for the threads.
pub fn run<R: Threads + Wait + Sync, S: Source, K: Sink>(
    rt: &R,
    alloc: Global,
    source: &mut S,
    query_text: &str,
    mut settings: Settings,
    sink: &mut K,
) -> Result<(), RunFault>
    requires source { S.has_failed source.old ≡ false }
    requires sink { K.has_failed sink.old ≡ false }
    ensures ran { Ran (of_stream S.Source settings.limit settings.morsel source.old source.new)
        K.Sink query_text.now settings.limit sink.old sink.new result }
    ensures read_failed { S.has_failed source.new ≡ is_read_failed result }
    ensures write_failed { K.has_failed sink.new ≡ is_write_failed result }
{
    let query = query_of(alloc, query_text)?;
    settings.parts = greatest_prime(settings.parts);
    let made = answer_source(rt, alloc, source, &query, settings)?;
    made.hand_over(rt, alloc, sink)
}

/// What comes of a query over all that a source gives: of a short one on this thread alone, else by a first pipeline
/// for each batch and the second one behind them.
fn answer_source<R: Threads + Wait + Sync, S: Source>(
    rt: &R,
    alloc: Global,
    source: &mut S,
    query: &Query,
    settings: Settings,
) -> Result<Made, RunFault>
    requires { S.has_failed source.old ≡ false }
    ensures answered { IsAnsweredOrRefused told
        (of_stream S.Source settings.limit settings.morsel source.old source.new)
        query.now settings.limit result }
    ensures ready { IfOk result IsReady }
    ensures read_failed { S.has_failed source.new ≡ is_read_failed result }
{
    let parts = settings.parts;
    let total = match scan_source(rt, alloc, source, query.as_of, settings) {
        Ok(WholeSource::Short(cut)) => {
            let made = made_alone(alloc, &cut, query, parts, &FreeGate)?;
            return Ok(made);
        }
        Ok(WholeSource::Long(total)) => total,
        Err(fault) => return made_of_fault(fault, settings.limit),
    };
    let link = PlanLink::new(query, parts);
    let outcome = run_second(rt, alloc, total, &link, settings.crew, &FreeGate)?;
    Ok(made_of(query, outcome, settings.crew.workers))
}
