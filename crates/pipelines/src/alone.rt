//! Two pipelines on the caller's thread alone. Nothing here waits for another thread.
ghost use Rattle.std.specs.Prelude.{IfOk, OnOk};
ghost use Rattle.pipelines.specs.Outcomes.{IsOutcome};

use crate::outcome::Outcome;
use gathering::{Inputs, Link, Linked, OutOfMemory, Work};
use std::alloc::Global;
use workers::Gate;

/// Runs the first pipeline, links its total, and runs the second pipeline: each task once, in order, on this thread.
/// The gate hears of it as of any run of the caller's own. It has no handle to wait by, so it is proved to return if
/// the works, the link and the gate do. It is refused if memory was refused to any of them.
pub fn run_alone<A: Work, B: Work, L: Link<A, B>, G: Gate>(
    alloc: Global,
    inputs: &Inputs<A>,
    link: &L,
    gate: &G,
) -> Result<Outcome<B::Total, L::Kept, L::Stop>, OutOfMemory>
    ensures { IfOk result (IsOutcome (A.IsTotalOf inputs.now) (L.Links link.now) B.IsTotalOf) }
{
    let total = total_of(alloc, inputs, gate, 1)?;
    match link.link(alloc, total)? {
        Linked::Halt { stop } => Ok(Outcome::Stopped { stop }),
        Linked::Next { inputs, kept } => {
            let total = total_of(alloc, &inputs, gate, 2)?;
            Ok(Outcome::Finished { total, kept })
        }
    }
}

/// The total of all inputs of the pipeline of this number. Nothing is gathered, since no other thread brings anything.
fn total_of<W: Work, G: Gate>(
    alloc: Global,
    inputs: &Inputs<W>,
    gate: &G,
    number: u8,
) -> Result<W::Total, OutOfMemory>
    ensures total { IfOk result (λ total. W.IsTotalOf inputs.now total) }
    ensures admissible { OnOk result (W.IsAdmissible inputs.now) }
{
    let tasks = inputs.all().len() as u32;
    let mut total = W::empty(alloc);
    for task in 0..tasks {
        gate.before(number, task, 2);
        let output = W::run(alloc, inputs.input(task))?;
        W::add(&mut total, &output)?;
    }
    gate.done(number);
    Ok(total)
}
