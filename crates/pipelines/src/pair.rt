//! Two pipelines on threads, and each of them alone.
ghost use Rattle.std.specs.Prelude.{◌≡◌, IfOk, OnOk};
ghost use Rattle.std.specs.Arc.{arc_value};
ghost use Rattle.gathering.specs.Totals.{IsTotal};
ghost use Rattle.pipelines.specs.Outcomes.{IsOutcome};

use crate::outcome::Outcome;
use crate::pipeline::Pipeline;
use gathering::{Inputs, Link, Linked, OutOfMemory, Work};
use outcomes::Crew;
use std::alloc::Global;
use std::sync::{Arc, Wait};
use std::thread::{self, Scope, Threads};
use workers::Gate;

/// Runs the first pipeline, links its total, and runs the second pipeline, each with the crew. It waits for the pieces,
/// and at the end for all workers. It is refused if memory was refused to the caller's thread.
pub fn run_pair<A: Work, B: Work, L: Link<A, B>, G: Gate, R: Threads + Wait + Sync>(
    rt: &R,
    alloc: Global,
    inputs: Arc<Inputs<A>, Global>,
    link: &L,
    crew: Crew,
    gate: &G,
) -> Result<Outcome<B::Total, L::Kept, L::Stop>, OutOfMemory>
    ensures { IfOk result (IsOutcome (A.IsTotalOf (arc_value inputs)) (L.Links link.now) B.IsTotalOf) }
{
    let first = &Pipeline {
        rt,
        alloc,
        crew,
        gate,
        number: 1,
    };
    let inputs = &*inputs;
    thread::scope(
        thread::scope_env(),
        rt,
        move |scope| -> Result<Outcome<B::Total, L::Kept, L::Stop>, OutOfMemory>
            ensures { IfOk result
                (λ outcome. IsOutcome (A.IsTotalOf inputs.entry.now) (L.Links link.entry.now) B.IsTotalOf outcome) }
        { pair_in(scope, first, inputs, link) },
    )
}

/// Runs both pipelines, of which this is the first, and whose workers the scope waits for.
fn pair_in<'s, E, A: Work + 's, B: Work, L: Link<A, B>, G: Gate, R: Threads + Wait + Sync>(
    scope: &Scope<'s, E>,
    first: &Pipeline<'s, G, R>,
    inputs: &Inputs<A>,
    link: &L,
) -> Result<Outcome<B::Total, L::Kept, L::Stop>, OutOfMemory>
    ensures { IfOk result (IsOutcome (A.IsTotalOf inputs.now) (L.Links link.now) B.IsTotalOf) }
{
    let total = first.total_in(scope, inputs)?;
    run_second(first.rt, first.alloc, total, link, first.crew, first.gate)
}

/// Runs the first pipeline alone, as `run_pair` does, and gives the total of all inputs.
pub fn run_first<W: Work, G: Gate, R: Threads + Wait + Sync>(
    rt: &R,
    alloc: Global,
    inputs: &Arc<Inputs<W>, Global>,
    crew: Crew,
    gate: &G,
) -> Result<W::Total, OutOfMemory>
    ensures total { IfOk result (λ total. W.IsTotalOf (arc_value inputs.now) total) }
    ensures admissible { OnOk result (W.IsAdmissible (arc_value inputs.now)) }
{
    let first = Pipeline {
        rt,
        alloc,
        crew,
        gate,
        number: 1,
    };
    first.total(inputs)
}

/// Links a total, which some inputs of the first pipeline have, and runs the second pipeline alone, as
/// `run_pair` does once the first is done.
pub fn run_second<A: Work, B: Work, L: Link<A, B>, G: Gate, R: Threads + Wait + Sync>(
    rt: &R,
    alloc: Global,
    total: A::Total,
    link: &L,
    crew: Crew,
    gate: &G,
) -> Result<Outcome<B::Total, L::Kept, L::Stop>, OutOfMemory>
    requires total { IsTotal A.IsTotalOf A.IsAdmissible total }
    ensures outcome { IfOk result (IsOutcome (λ first. first ≡ total) (L.Links link.now) B.IsTotalOf) }
{
    match link.link(alloc, total)? {
        Linked::Halt { stop } => Ok(Outcome::Stopped { stop }),
        Linked::Next { inputs, kept } => {
            let second = Pipeline {
                rt,
                alloc,
                crew,
                gate,
                number: 2,
            };
            let total = second.total(&inputs)?;
            Ok(Outcome::Finished { total, kept })
        }
    }
}
