//! Growths that are refused: the room for the pieces, and each growth of the work.
ghost use Rattle.std.specs.Prelude.{◌<◌};

use crate::pieces::{Eight, gathered, has_total, merged, piece_of, run_all};
use gathering::{Gathering, Inputs, OutOfMemory, TotalRefused};
use linked_list_allocator::LocalHeap;
use std::alloc::Global;
use std::sync::Arc;
use std::test::Fail;
use tests_support::{Sum, Watch};

/// All tasks, in the order in which their pieces are filed.
const ORDER: [u32; 8] = [3, 0, 6, 1, 7, 4, 2, 5];

/// All tasks, in their order.
const ALL: [u32; 8] = [0, 1, 2, 3, 4, 5, 6, 7];

/// A gathering of no task, whose pieces have their room in this heap.
fn empty_in<'a>(
    alloc: Global,
    heap: &'a LocalHeap,
    inputs: &Arc<Inputs<Sum>, Global>,
) -> Result<Gathering<Sum, &'a LocalHeap>, OutOfMemory> {
    Gathering::new_in(alloc, heap, Arc::try_clone(inputs)?)
}

/// The least heap, in bytes, that has room for a gathering, if none keeps anything of what is refused or gone.
fn least_heap(
    alloc: Global,
    inputs: &Arc<Inputs<Sum>, Global>,
) -> Result<Option<usize>, OutOfMemory> {
    for step in 1..100 {
        let heap = LocalHeap::new(alloc, 16 * step)?;
        let is_made = empty_in(alloc, &heap, inputs).is_ok();
        if heap.used() > 0 {
            return Ok(None);
        }
        if is_made {
            return Ok(Some(16 * step));
        }
    }
    Ok(None)
}

/// Whether a gathering that is merged into another one has the total of all, while neither heap has room left.
fn is_done_on_full_heaps<'a>(
    alloc: Global,
    inputs: &Arc<Inputs<Sum>, Global>,
    heap: &'a LocalHeap,
    second: &'a LocalHeap,
) -> Result<bool, OutOfMemory> {
    let mut other = empty_in(alloc, second, inputs)?;
    let mut gathering = empty_in(alloc, heap, inputs)?;
    let are_full = heap.free() == 0 && second.free() == 0;
    run_all(alloc, &mut gathering, inputs, &[7, 0, 5])?;
    run_all(alloc, &mut other, inputs, &[6, 2, 1, 4, 3, 0])?;
    let _ = gathering.merge(other);
    Ok(second.used() == 0 && has_total(gathering, 255) && are_full)
}

/// Whether that comes on heaps of `size` bytes, twice, and nothing is kept of it.
fn is_done_twice(alloc: Global, eight: &Eight, size: usize) -> Result<bool, OutOfMemory> {
    let second = LocalHeap::new(alloc, size)?;
    let heap = LocalHeap::new(alloc, size)?;
    let is_done = is_done_on_full_heaps(alloc, &eight.inputs, &heap, &second)?;
    let is_done_again = is_done_on_full_heaps(alloc, &eight.inputs, &second, &heap)?;
    Ok(is_done && is_done_again && heap.used() == 0 && second.used() == 0)
}

#[test]
fn each_allocation_can_be_refused(rt: HostRuntime) -> Result<(), Fail> {
    let eight = Eight::of(rt.alloc())?;
    let size = least_heap(rt.alloc(), &eight.inputs)?.unwrap_or(0);
    assert!(rt; size > 16 && is_done_twice(rt.alloc(), &eight, size)?);
    Ok(())
}

/// Whether the pieces of all tasks have their total while one growth is refused, which comes unless it is the last. A
/// run that was refused is tried again, and so is an addition, by the total at the latest.
fn has_total_without_growth(alloc: Global, eight: &Eight, growth: u64) -> Result<bool, OutOfMemory>
    requires { growth < 100 }
{
    eight.watch.refuse_growths(growth..growth + 1);
    let gathering = gathered(alloc, &eight.inputs, &ORDER)?;
    let refusals = if growth < 16 { 1 } else { 0 };
    Ok(has_total(gathering, 255) && eight.watch.refusals() == refusals)
}

// There are 8 runs and 8 additions.
#[test]
fn each_growth_of_the_work_can_be_refused(rt: HostRuntime) -> Result<(), Fail> {
    let eight = Eight::of(rt.alloc())?;
    for growth in 0..17 {
        assert!(rt; has_total_without_growth(rt.alloc(), &eight, growth)?);
    }
    Ok(())
}

/// Whether all tasks are covered, a total that is refused hands the pieces back, and it comes once additions are no
/// longer refused.
fn has_its_total_later(watch: &Watch, gathering: Gathering<Sum>) -> bool {
    match gathering.total() {
        Err(TotalRefused::Memory { gathering }) => {
            watch.refuse_additions(false);
            has_total(gathering, 255)
        }
        _ => false,
    }
}

/// Whether the pieces of these tasks, and of others that are merged into them, are kept while each addition is refused,
/// and have their total later.
fn lose_nothing(alloc: Global, own: &[u32], others: &[u32]) -> Result<bool, OutOfMemory> {
    let eight = Eight::of(alloc)?;
    eight.watch.refuse_additions(true);
    let gathering = merged(alloc, &eight.inputs, own, others)?;
    Ok(has_its_total_later(&eight.watch, gathering))
}

#[test]
fn refusals_lose_nothing(rt: HostRuntime) -> Result<(), Fail> {
    assert!(rt; lose_nothing(rt.alloc(), &ALL, &[])?);
    assert!(rt; lose_nothing(rt.alloc(), &[7, 6, 5, 4, 3, 2, 1], &[0])?);
    Ok(())
}

/// Whether eight additions that were refused are made by a merge of nothing, or by a piece that comes again, and not by
/// the total: each piece tried the first.
fn are_added_later(alloc: Global, merges: bool) -> Result<bool, OutOfMemory> {
    let eight = Eight::of(alloc)?;
    let watch = &eight.watch;
    watch.refuse_additions(true);
    let mut gathering = gathered(alloc, &eight.inputs, &ALL)?;
    let refused = watch.additions();
    watch.refuse_additions(false);
    if merges {
        let _ = gathering.merge(gathered(alloc, &eight.inputs, &[])?);
    } else {
        let _ = gathering.file(piece_of(alloc, watch, 5, 32)?);
    }
    let added = watch.additions();
    let is_right = has_total(gathering, 255) && watch.additions() == 16;
    Ok(refused == 8 && added == 16 && is_right)
}

#[test]
fn refused_additions_are_tried_again(rt: HostRuntime) -> Result<(), Fail> {
    assert!(rt; are_added_later(rt.alloc(), false)?);
    assert!(rt; are_added_later(rt.alloc(), true)?);
    Ok(())
}
