//! The runs of tasks on the thread that has the gathering.
ghost use Rattle.std.specs.Prelude.{◌≡◌, ◌<◌, ℕ, OnErr, OnOk, length, true};
ghost use Rattle.std.specs.Arc.{arc_value};
ghost use Rattle.std.specs.FinSet as set;
ghost use Rattle.gathering.specs.Views.{IsComplete};

use crate::gate::Gate;
use gathering::{Gathering, Inputs, OutOfMemory, Piece, Work};
use std::alloc::{Allocator, Global};
use std::sync::Arc;

/// Runs the task, and files its piece. It is refused if memory was refused to it.
pub fn run_task<W: Work, M: Allocator>(
    alloc: Global,
    gathering: &mut Gathering<W, M>,
    inputs: &Arc<Inputs<W>, Global>,
    task: u32,
) -> Result<(), OutOfMemory>
    requires task { task < length (arc_value inputs.now) }
    requires own { gathering.old.inputs ≡ arc_value inputs.now }
    ensures inputs { gathering.new.inputs ≡ gathering.old.inputs }
    ensures covered { OnOk result
        (gathering.new.covered ≡ set.insert gathering.old.covered task) }
    ensures err { OnErr result (gathering.new ≡ gathering.old) }
{
    let input = Arc::try_clone(inputs.input(task))?;
    let piece = Piece::make(alloc, task, input)?;
    let _ = gathering.file(piece);
    Ok(())
}

/// Runs the tasks that are not covered, and calls the gate before each. It is refused as `run_task` is; the
/// gathering then has what it had, and the pieces of the tasks that were run before.
pub fn run_missing<W: Work, G: Gate>(
    alloc: Global,
    gathering: &mut Gathering<W>,
    inputs: &Arc<Inputs<W>, Global>,
    pipeline: u8,
    gate: &G,
) -> Result<(), OutOfMemory>
    requires own { gathering.old.inputs ≡ arc_value inputs.now }
    ensures inputs { gathering.new.inputs ≡ gathering.old.inputs }
    ensures complete { OnOk result (IsComplete gathering.new) }
    ensures kept { OnErr result ((task : ℕ) → set.contains gathering.old.covered task ≡ true →
        set.contains gathering.new.covered task ≡ true) }
{
    for task in 0..inputs.count() {
        if gathering.covers(task) {
            continue;
        }
        gate.before(pipeline, task, 2);
        run_task(alloc, gathering, inputs, task)?;
    }
    Ok(())
}
