//! Two pipelines on one thread, by schedules.
ghost use Rattle.std.specs.Prelude.{◌≡◌, ℕ, ◌<◌, ◌≤◌, ◌&&◌, nat_lt, ◌∷◌, All, IfOk, OnOk, MatchResult, None, Some};
ghost use Rattle.std.specs.Prelude.{length, replicate};
ghost use Rattle.std.specs.Arc.{arc_value};
ghost use Rattle.std.specs.FinSet.{contains, empty};
ghost use Rattle.schedules.specs.Rehearsals.{IsRehearsed};
ghost use Rattle.schedules.specs.Schedules.{covered_sets, first_left, has_arrived, some_covers};

use crate::event::{apply_all, unite};
use crate::{Event, Rehearsed};
use gathering::{Gathering, Inputs, Link, Linked, OutOfMemory, TotalRefused, Work};
use std::alloc::{AllocError, Allocator, Global};
use std::sync::Arc;

/// Rehearses what `run_pair` does, on this thread alone: each pipeline has 1 to 64 gatherers, does the events of its
/// schedule in order, and then merges all gatherers into the first. A task has arrived if some `Arrive` of its pipeline
/// names it and a gatherer that exists. It runs the tasks of the pieces that arrive, and no other. It is refused if
/// memory was refused to it.
pub fn rehearse_pair<A: Work, B: Work, L: Link<A, B>>(
    alloc: Global,
    inputs: Arc<Inputs<A>, Global>,
    link: &L,
    gatherers: u32,
    events1: &[Event],
    events2: &[Event],
) -> Result<Rehearsed<B::Total, L::Kept, L::Stop>, OutOfMemory>
    requires { (0 < gatherers) × (gatherers ≤ 64) }
    ensures { IfOk result (IsRehearsed (length (arc_value inputs)) (A.IsTotalOf (arc_value inputs))
        (L.Links link.now) B.IsTotalOf gatherers events1.now events2.now) }
{
    let total = match rehearse_pipeline(alloc, alloc, inputs, gatherers, events1)? {
        Ok(total) => total,
        Err(task) => return Ok(Rehearsed::Missing { pipeline: 1, task }),
    };
    match link.link(alloc, total)? {
        Linked::Halt { stop } => Ok(Rehearsed::Stopped { stop }),
        Linked::Next { inputs, kept } => {
            let inputs = Arc::new(alloc, inputs)?;
            match rehearse_pipeline(alloc, alloc, inputs, gatherers, events2)? {
                Ok(total) => Ok(Rehearsed::Finished { total, kept }),
                Err(task) => Ok(Rehearsed::Missing { pipeline: 2, task }),
            }
        }
    }
}

/// Rehearses one pipeline: the total of all inputs, or the first task that has not arrived. The gatherers and their
/// room are taken of this memory. It is refused as `rehearse_pair` is.
#[tactic(auto, using(crate::proofs::Schedules::first_left_is))]
pub fn rehearse_pipeline<W: Work, M: Allocator + Clone>(
    alloc: Global,
    memory: M,
    inputs: Arc<Inputs<W>, Global>,
    gatherers: u32,
    events: &[Event],
) -> Result<Result<W::Total, u32>, OutOfMemory>
    requires { (0 < gatherers) × (gatherers ≤ 64) }
    ensures answer { IfOk result (λ answer. MatchResult answer
        (λ total. (first_left gatherers (length (arc_value inputs)) events.now ≡ None)
        × W.IsTotalOf (arc_value inputs) total)
        (λ task. first_left gatherers (length (arc_value inputs)) events.now ≡ Some task)) }
    ensures admissible { IfOk result (λ answer. OnOk answer (W.IsAdmissible (arc_value inputs))) }
{
    let gathering = gather_by(alloc, memory, &inputs, gatherers, events)?;
    if let Some(task) = gathering.first_missing() {
        return Ok(Err(task));
    }
    match gathering.total() {
        Ok(total) => Ok(Ok(total)),
        Err(TotalRefused::Memory { gathering: _ }) => Err(AllocError),
        Err(TotalRefused::Missing { gathering: _ }) => unreachable!(),
    }
}

/// What the gatherers have together after the events.
fn gather_by<W: Work, M: Allocator + Clone>(
    alloc: Global,
    memory: M,
    inputs: &Arc<Inputs<W>, Global>,
    gatherers: u32,
    events: &[Event],
) -> Result<Gathering<W, M>, OutOfMemory>
    requires { 0 < gatherers }
    ensures inputs { IfOk result (λ g. g.inputs ≡ arc_value inputs.now) }
    ensures arrived { IfOk result (λ g. (task : ℕ) → contains g.covered task
        ≡ (nat_lt task (length (arc_value inputs.now)) && has_arrived gatherers events.now task)) }
{
    let mut gatherings = empty_gatherings(alloc, memory, inputs, gatherers)?;
    apply_all(alloc, &mut gatherings, inputs, events)?;
    let mut first = gatherings.remove(0);
    unite_all(&mut first, gatherings);
    Ok(first)
}

/// A number of gatherings, which cover no task. They and their room are taken of this memory.
fn empty_gatherings<W: Work, M: Allocator + Clone>(
    alloc: Global,
    memory: M,
    inputs: &Arc<Inputs<W>, Global>,
    count: u32,
) -> Result<Vec<Gathering<W, M>, M>, OutOfMemory>
    ensures inputs { IfOk result (λ all. All (λ g. g.inputs ≡ arc_value inputs.now) all.items) }
    ensures empty { IfOk result (λ all. covered_sets all.items ≡ replicate count empty) }
{
    let mut all = Vec::new(memory.clone()?);
    for _ in 0..count {
        let inputs = Arc::try_clone(inputs)?;
        all.push(Gathering::new_in(alloc, memory.clone()?, inputs)?)?;
    }
    Ok(all)
}

/// Merges all of them.
fn unite_all<W: Work, M: Allocator>(
    first: &mut Gathering<W, M>,
    mut others: Vec<Gathering<W, M>, M>,
)
    requires { All (λ g. g.inputs ≡ first.old.inputs) others.items }
    ensures inputs { first.new.inputs ≡ first.old.inputs }
    ensures covered { (task : ℕ) → contains first.new.covered task
        ≡ some_covers (first.old.covered ∷ covered_sets others.items) task }
{
    while let Some(other) = others.pop() {
        unite(first, other);
    }
}
