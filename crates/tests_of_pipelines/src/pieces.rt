//! Pieces that are filed and gatherings that are merged.

use gathering::{Filed, Gathering, Inputs, OutOfMemory, Piece, TotalRefused};
use std::alloc::{Allocator, Global};
use std::sync::Arc;
use std::test::Fail;
use tests_support::{NUMBERS, Number, Sum, Watch, shared_inputs_of};

/// The inputs of the eight numbers, and what they share.
#[derive(Drop)]
pub(crate) struct Eight {
    pub(crate) watch: Arc<Watch, Global>,
    pub(crate) inputs: Arc<Inputs<Sum>, Global>,
}

impl Eight {
    /// Inputs of which none was run.
    pub(crate) fn of(alloc: Global) -> Result<Eight, OutOfMemory> {
        let watch = Watch::shared(alloc)?;
        let inputs = shared_inputs_of(alloc, &watch, &NUMBERS)?;
        Ok(Eight { watch, inputs })
    }
}

/// The piece of a task, run on this number.
pub(crate) fn piece_of(
    alloc: Global,
    watch: &Arc<Watch, Global>,
    task: u32,
    number: u64,
) -> Result<Piece<Sum>, OutOfMemory> {
    let watch = Arc::try_clone(watch)?;
    Piece::make(alloc, task, Arc::new(alloc, Number { number, watch })?)
}

/// Runs a task, if there is one of this number, and files its piece.
fn run<A: Allocator>(
    alloc: Global,
    gathering: &mut Gathering<Sum, A>,
    inputs: &Inputs<Sum>,
    task: u32,
) -> Result<(), OutOfMemory> {
    if task < inputs.count() {
        let input = Arc::try_clone(inputs.input(task))?;
        let _ = gathering.file(Piece::make(alloc, task, input)?);
    }
    Ok(())
}

/// Runs some tasks, in this order, and files their pieces. A run that is refused is tried once more.
pub(crate) fn run_all<A: Allocator>(
    alloc: Global,
    gathering: &mut Gathering<Sum, A>,
    inputs: &Inputs<Sum>,
    tasks: &[u32],
) -> Result<(), OutOfMemory> {
    for task in tasks {
        if run(alloc, gathering, inputs, *task).is_err() {
            run(alloc, gathering, inputs, *task)?;
        }
    }
    Ok(())
}

/// A gathering of some tasks.
pub(crate) fn gathered(
    alloc: Global,
    inputs: &Arc<Inputs<Sum>, Global>,
    tasks: &[u32],
) -> Result<Gathering<Sum>, OutOfMemory> {
    let mut gathering = Gathering::new(alloc, Arc::try_clone(inputs)?)?;
    run_all(alloc, &mut gathering, inputs, tasks)?;
    Ok(gathering)
}

/// Two gatherings of some tasks, merged.
pub(crate) fn merged(
    alloc: Global,
    inputs: &Arc<Inputs<Sum>, Global>,
    own: &[u32],
    others: &[u32],
) -> Result<Gathering<Sum>, OutOfMemory> {
    let other = gathered(alloc, inputs, others)?;
    let mut gathering = gathered(alloc, inputs, own)?;
    let _ = gathering.merge(other);
    Ok(gathering)
}

/// Whether a gathering has this total.
pub(crate) fn has_total<A: Allocator>(gathering: Gathering<Sum, A>, sum: u128) -> bool {
    match gathering.total() {
        Ok(total) => total == sum,
        Err(_) => false,
    }
}

/// Whether a gathering lacks this task first, and so has no total.
fn is_without(gathering: Gathering<Sum>, missing: u32) -> bool {
    let is_first = gathering.first_missing() == Some(missing);
    match gathering.total() {
        Err(TotalRefused::Missing { gathering: _ }) => is_first,
        _ => false,
    }
}

const FIRST: [u32; 6] = [0, 1, 2, 3, 4, 7];

const SECOND: [u32; 6] = [0, 1, 2, 3, 5, 6];

/// Whether a gathering of these tasks, alone and merged with itself, lacks this task first, and merged with the other
/// has the total of all, for which no task is run.
fn overlaps(
    alloc: Global,
    eight: &Eight,
    own: &[u32],
    other: &[u32],
    missing: u32,
) -> Result<bool, OutOfMemory> {
    let is_alone_without = is_without(gathered(alloc, &eight.inputs, own)?, missing);
    let is_without = is_without(merged(alloc, &eight.inputs, own, own)?, missing);
    let both = merged(alloc, &eight.inputs, own, other)?;
    let runs = eight.watch.runs();
    Ok(has_total(both, 255) && eight.watch.runs() == runs && is_alone_without && is_without)
}

#[test]
fn gatherings_that_overlap_add_each_task_once(rt: HostRuntime) -> Result<(), Fail> {
    let eight = Eight::of(rt.alloc())?;
    // A task is run once: there are five gatherings of six tasks each.
    assert!(rt; overlaps(rt.alloc(), &eight, &FIRST, &SECOND, 5)? && eight.watch.runs() == 30);
    assert!(rt; overlaps(rt.alloc(), &eight, &SECOND, &FIRST, 4)?);
    Ok(())
}

/// Whether twelve pieces are added where a gathering of other tasks is merged into one of these, whose pieces below
/// the first gap are `own`: the longer prefix stays, and the total adds none again.
fn adds_once(
    alloc: Global,
    own: &[u32],
    other: &[u32],
    additions: u64,
) -> Result<bool, OutOfMemory> {
    let eight = Eight::of(alloc)?;
    let watch = &eight.watch;
    let mut both = gathered(alloc, &eight.inputs, own)?;
    let first = watch.additions();
    let _ = both.merge(gathered(alloc, &eight.inputs, other)?);
    let merged = watch.additions();
    let is_right = has_total(both, 255) && watch.additions() == 12;
    Ok(first == additions && merged == 12 && is_right)
}

#[test]
fn pieces_below_the_first_gap_are_added_once(rt: HostRuntime) -> Result<(), Fail> {
    assert!(rt; adds_once(rt.alloc(), &FIRST, &SECOND, 5)?);
    assert!(rt; adds_once(rt.alloc(), &SECOND, &FIRST, 4)?);
    Ok(())
}

/// How a gathering of task 3 files its piece again, and one that was run on another number.
fn filed_again(alloc: Global, eight: &Eight) -> Result<[Option<Filed>; 2], OutOfMemory> {
    let mut gathering = gathered(alloc, &eight.inputs, &[3])?;
    let again = gathering.file(piece_of(alloc, &eight.watch, 3, 8)?).ok();
    let other = gathering.file(piece_of(alloc, &eight.watch, 3, 9)?).ok();
    Ok([again, other])
}

/// Whether a gathering over other inputs comes back where it is merged.
fn is_handed_back(alloc: Global, eight: &Eight, numbers: &[u64; 2]) -> Result<bool, OutOfMemory> {
    let others = shared_inputs_of(alloc, &eight.watch, numbers)?;
    let other = gathered(alloc, &others, &[0])?;
    Ok(gathered(alloc, &eight.inputs, &[3])?.merge(other).is_err())
}

#[test]
fn other_work_is_handed_back(rt: HostRuntime) -> Result<(), Fail> {
    let eight = Eight::of(rt.alloc())?;
    assert!(rt; filed_again(rt.alloc(), &eight)? == [Some(Filed::Again), None]);
    assert!(rt; is_handed_back(rt.alloc(), &eight, &[1, 2])?);
    Ok(())
}

#[test]
fn no_inputs_have_a_total(rt: HostRuntime) -> Result<(), Fail> {
    let inputs = shared_inputs_of(rt.alloc(), &Watch::shared(rt.alloc())?, &[])?;
    let gathering = gathered(rt.alloc(), &inputs, &[])?;
    let is_complete = gathering.first_missing().is_none() && !gathering.covers(0);
    assert!(rt; has_total(gathering, 0) && is_complete);
    Ok(())
}
