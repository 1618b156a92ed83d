//! What happens to the gatherings of a pipeline, one event after the other.
ghost use Rattle.std.specs.Prelude.{◌≡◌, ◌<◌, fold, length, OnOk, OnErr};
ghost use Rattle.std.specs.Arc.{arc_value};
ghost use Rattle.gathering.specs.Views.{merged};
ghost use Rattle.schedules.specs.Schedules.{AreOver, after, covered_sets};
ghost use Rattle.schedules.specs.declared.event.Event.TheVariants.{Merge};

use gathering::{Gathering, Inputs, OutOfMemory, Work};
use std::alloc::{Allocator, Global};
use std::mem;
use std::sync::Arc;
use workers::run_task;

/// One event of a schedule. Gatherers and tasks are numbered from 0. An event changes nothing if it names one that
/// doesn't exist.
#[derive(Clone, Copy)]
pub enum Event {
    /// The task is run, and its piece is filed by the gatherer.
    Arrive { gatherer: u32, task: u32 },
    /// A piece of the task is lost.
    Lose { task: u32 },
    /// What the other gatherer has is merged into this one, and leaves the other empty.
    Merge { into: u32, other: u32 },
}

/// Does one event to gatherings over these inputs. It runs the task of a piece that arrives, once, also if the
/// gatherer covers the task already, and then drops the piece. It is refused if there is no memory for the piece, or,
/// in the gatherings' own allocator, for the gathering that takes the place of the merged one.
#[tactic(auto, using(crate::proofs::Schedules::arrive_step))]
pub fn apply<W: Work, M: Allocator + Clone>(
    alloc: Global,
    gatherings: &mut Vec<Gathering<W, M>, M>,
    inputs: &Arc<Inputs<W>, Global>,
    event: &Event,
) -> Result<(), OutOfMemory>
    requires own { AreOver (arc_value inputs.now) gatherings.old.items }
    ensures own { AreOver (arc_value inputs.now) gatherings.new.items }
    ensures step { OnOk result (covered_sets gatherings.new.items
        ≡ after (length (arc_value inputs.now)) (covered_sets gatherings.old.items) event.now) }
    ensures err { OnErr result (gatherings.new.items ≡ gatherings.old.items) }
{
    match *event {
        Event::Arrive { gatherer, task } => {
            let at = gatherer as usize;
            if at >= gatherings.len() || task >= inputs.count() {
                return Ok(());
            }
            run_task(alloc, &mut gatherings[at], inputs, task)
        }
        Event::Lose { task: _ } => Ok(()),
        Event::Merge { into, other } => merge(alloc, gatherings, inputs, into, other),
    }
}

/// Does all events, in order. It is refused as `apply` is, and then leaves the gatherings as the earlier events left
/// them.
pub(crate) fn apply_all<W: Work, M: Allocator + Clone>(
    alloc: Global,
    gatherings: &mut Vec<Gathering<W, M>, M>,
    inputs: &Arc<Inputs<W>, Global>,
    events: &[Event],
) -> Result<(), OutOfMemory>
    requires own { AreOver (arc_value inputs.now) gatherings.old.items }
    ensures own { AreOver (arc_value inputs.now) gatherings.new.items }
    ensures steps { OnOk result (covered_sets gatherings.new.items
        ≡ fold (after (length (arc_value inputs.now))) (covered_sets gatherings.old.items) events.now) }
{
    for event in events {
        apply(alloc, gatherings, inputs, event)?;
    }
    Ok(())
}

/// Merges the other gatherer into this one, and leaves an empty one in its place.
fn merge<W: Work, M: Allocator + Clone>(
    alloc: Global,
    gatherings: &mut Vec<Gathering<W, M>, M>,
    inputs: &Arc<Inputs<W>, Global>,
    into: u32,
    other: u32,
) -> Result<(), OutOfMemory>
    requires own { AreOver (arc_value inputs.now) gatherings.old.items }
    ensures own { AreOver (arc_value inputs.now) gatherings.new.items }
    ensures step { OnOk result (covered_sets gatherings.new.items
        ≡ after (length (arc_value inputs.now)) (covered_sets gatherings.old.items) (Merge into other)) }
    ensures err { OnErr result (gatherings.new.items ≡ gatherings.old.items) }
{
    let count = gatherings.len();
    let (into, other) = (into as usize, other as usize);
    if into >= count || other >= count || into == other {
        return Ok(());
    }
    let memory = gatherings.allocator().clone()?;
    let empty = Gathering::new_in(alloc, memory, Arc::try_clone(inputs)?)?;
    let merged = mem::replace(&mut gatherings[other], empty);
    unite(&mut gatherings[into], merged);
    Ok(())
}

/// Merges a gathering over the same inputs.
pub(crate) fn unite<W: Work, M: Allocator>(gathering: &mut Gathering<W, M>, other: Gathering<W, M>)
    requires { other.inputs ≡ gathering.old.inputs }
    ensures { gathering.new ≡ merged gathering.old other }
{
    let _ = gathering.merge(other);
}
