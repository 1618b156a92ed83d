//! Growths that are refused one after the other: what comes is the right sums or want of memory.
ghost use Rattle.std.specs.Prelude.{◌≡◌, ◌<◌};

use crate::event_lists::rehearsed;
use crate::link::{OneAndTwo, Sums, sums_of};
use crate::threads::{ONE, TWO, sums};
use linked_list_allocator::LocalHeap;
use pipelines::{Crew, FreeGate, OutOfMemory, run_alone, run_first};
use schedules::{Event, rehearse_pipeline};
use std::alloc::Global;
use std::sync::{Arc, Wait};
use std::test::Fail;
use std::thread::Threads;
use tests_support::{NUMBERS, Watch, shared_inputs_of};

/// The sums of 1 and 2, and of 1, 2 and 4.
const RIGHT: Sums = (3, 7);

/// Who runs both pipelines.
#[derive(Clone, Copy)]
enum Way {
    Workers(Crew),
    Caller,
    Rehearsal,
}

/// What the caller's thread gives alone.
fn alone(alloc: Global, watch: &Arc<Watch, Global>) -> Result<Sums, OutOfMemory> {
    let link = OneAndTwo::of(watch, false)?;
    let inputs = shared_inputs_of(alloc, watch, &NUMBERS[..3])?;
    Ok(sums_of(run_alone(alloc, &inputs, &link, &FreeGate)?))
}

/// All arrive at gatherer 1, which is merged into the other one before the last does.
const MERGED_ON_THE_WAY: [Event; 4] = [
    Event::Arrive {
        gatherer: 1,
        task: 2,
    },
    Event::Arrive {
        gatherer: 1,
        task: 0,
    },
    Event::Merge { into: 0, other: 1 },
    Event::Arrive {
        gatherer: 1,
        task: 1,
    },
];

/// What is given in a way.
fn given<R: Threads + Wait + Sync>(
    rt: &R,
    alloc: Global,
    watch: &Arc<Watch, Global>,
    way: Way,
) -> Result<Sums, OutOfMemory> {
    match way {
        Way::Workers(crew) => sums(
            rt,
            alloc,
            watch,
            watch,
            &NUMBERS[..3],
            false,
            crew,
            &FreeGate,
        ),
        Way::Caller => alone(alloc, watch),
        Way::Rehearsal => {
            // The second pipeline has no task 2, whose arrival changes nothing there.
            let events = &MERGED_ON_THE_WAY;
            let (_, total, kept) = rehearsed(alloc, watch, 3, false, events, events)?;
            Ok((total, kept))
        }
    }
}

/// Whether the sums come, or want of memory, if one growth is refused, and it is refused unless it is the twelfth.
fn comes<R: Threads + Wait + Sync>(
    rt: &R,
    alloc: Global,
    way: Way,
    growth: u64,
    is_right: bool,
) -> Result<bool, OutOfMemory>
    requires { growth < 12 }
{
    let watch = Watch::refusing(alloc, growth..growth + 1)?;
    let got = given(rt, alloc, &watch, way).ok();
    let refusals = if growth < 11 { 1 } else { 0 };
    Ok(got == is_right.then_some(RIGHT) && watch.refusals() == refusals)
}

#[test]
fn each_growth_can_be_refused(rt: HostRuntime) -> Result<(), Fail> {
    // Three runs and their additions, the link, two runs and theirs. An addition that is refused is
    // tried again, and a run that is refused to a worker is a lost piece. A rehearsal has none, and a caller that is
    // alone tries nothing again.
    let (no, yes) = (false, true);
    for (way, comes_right) in [
        (
            Way::Workers(ONE),
            [yes, yes, yes, yes, yes, yes, no, yes, yes, yes, yes, yes],
        ),
        (
            Way::Caller,
            [no, no, no, no, no, no, no, no, no, no, no, yes],
        ),
        (
            Way::Rehearsal,
            [no, no, yes, no, yes, yes, no, no, yes, no, yes, yes],
        ),
    ] {
        for growth in 0..12 {
            let is_right = comes_right[growth];
            assert!(rt; comes(&rt, rt.alloc(), way, growth as u64, is_right)?);
        }
    }
    Ok(())
}

#[test]
fn all_additions_can_be_refused(rt: HostRuntime) -> Result<(), Fail> {
    let watch = Watch::shared(rt.alloc())?;
    for way in [Way::Workers(ONE), Way::Caller, Way::Rehearsal] {
        watch.refuse_additions(true);
        let refused = given(&rt, rt.alloc(), &watch, way).ok();
        watch.refuse_additions(false);
        let got = given(&rt, rt.alloc(), &watch, way).ok();
        assert!(rt; refused.is_none() && got == Some(RIGHT));
    }
    Ok(())
}

/// Whether two tasks are rehearsed with their two gatherers in a heap of this size.
fn is_rehearsed_in(alloc: Global, size: usize) -> Result<bool, OutOfMemory> {
    let heap = LocalHeap::new(alloc, size)?;
    let inputs = shared_inputs_of(alloc, &Watch::shared(alloc)?, &[1, 2])?;
    let events = [
        Event::Arrive {
            gatherer: 1,
            task: 1,
        },
        Event::Merge { into: 0, other: 1 },
        Event::Arrive {
            gatherer: 1,
            task: 0,
        },
    ];
    let sum = rehearse_pipeline(alloc, &heap, inputs, 2, &events);
    Ok(matches!(sum, Ok(Ok(3))))
}

#[test]
fn each_allocation_of_gatherers_can_be_refused(rt: HostRuntime) -> Result<(), Fail> {
    for units in 1..200 {
        if is_rehearsed_in(rt.alloc(), 16 * units)? {
            assert!(rt; units > 1);
            return Ok(());
        }
    }
    Err(Fail::new("no heap is large enough"))
}

/// Run also with each allocation and each thread of the process refused in turn.
#[test]
fn sums_or_want_of_memory(rt: HostRuntime) -> Result<(), Fail> {
    let watch = Watch::shared(rt.alloc())?;
    for way in [Way::Workers(TWO), Way::Caller, Way::Rehearsal] {
        assert!(rt; given(&rt, rt.alloc(), &watch, way)? == RIGHT);
    }
    Ok(())
}

/// The sum of 1, 2 and 4, by the first pipeline alone.
fn sum_of_one<R: Threads + Wait + Sync>(rt: &R, alloc: Global) -> Result<u128, OutOfMemory> {
    let inputs = shared_inputs_of(alloc, &Watch::shared(alloc)?, &NUMBERS[..3])?;
    run_first(rt, alloc, &inputs, TWO, &FreeGate)
}

/// Run also with each allocation and each thread of the process refused in turn.
#[test]
fn one_sum_or_want_of_memory(rt: HostRuntime) -> Result<(), Fail> {
    assert!(rt; sum_of_one(&rt, rt.alloc())? == 7);
    Ok(())
}
