//! Pipelines of two gatherers, by schedules.
ghost use Rattle.std.specs.Arc.{arc_value};
ghost use Rattle.std.specs.Prelude.{◌≤◌};
ghost use Rattle.schedules.specs.Schedules.{AreOver};

use crate::link::OneAndTwo;
use pipelines::{Gathering, Inputs, OutOfMemory};
use schedules::{Event, Rehearsed, apply, rehearse_pair};
use std::alloc::Global;
use std::sync::Arc;
use std::test::Fail;
use tests_support::{NUMBERS, Sum, Watch, shared_inputs_of};

/// A task arrives at gatherer 0.
fn at_0(task: u32) -> Event {
    Event::Arrive { gatherer: 0, task }
}

/// A task arrives at gatherer 1.
fn at_1(task: u32) -> Event {
    Event::Arrive { gatherer: 1, task }
}

/// Task 3 arrives at gatherer 1.
const ARRIVAL: Event = Event::Arrive {
    gatherer: 1,
    task: 3,
};

/// Gatherer 1 is merged into gatherer 0.
const MERGE: Event = Event::Merge { into: 0, other: 1 };

/// What two gatherers give of the first numbers: 0 and the sums, or the pipeline that lacks a task, and the task.
pub(crate) fn rehearsed(
    alloc: Global,
    watch: &Arc<Watch, Global>,
    count: usize,
    halts: bool,
    first: &[Event],
    second: &[Event],
) -> Result<(u8, u128, u128), OutOfMemory>
    requires { count ≤ 8 }
{
    let link = OneAndTwo::of(watch, halts)?;
    let inputs = shared_inputs_of(alloc, watch, &NUMBERS[..count])?;
    match rehearse_pair(alloc, inputs, &link, 2, first, second)? {
        Rehearsed::Finished { total, kept } => Ok((0, total, kept)),
        Rehearsed::Stopped { stop } => Ok((0, stop, 0)),
        Rehearsed::Missing { pipeline, task } => Ok((pipeline, u128::from(task), 0)),
    }
}

#[test]
fn each_arrival_is_run_once_and_nothing_else(rt: HostRuntime) -> Result<(), Fail> {
    let alloc = rt.alloc();
    // Each task arrives at gatherer 0, and one also at the other, before and after a merge.
    let each = [
        at_0(0),
        at_0(1),
        at_0(2),
        at_0(3),
        at_0(4),
        at_0(5),
        at_0(6),
        at_0(7),
        at_1(3),
        MERGE,
        at_1(3),
    ];
    let mut lost = each;
    lost[5] = Event::Lose { task: 5 };
    // Task 4 arrives once more at a gatherer that covers it: it is run, and the piece is dropped.
    let mut again = each;
    again[5] = at_0(4);
    // These name a gatherer or a task that there isn't, or one gatherer twice, or lose a piece.
    let without_effect = [
        Event::Arrive {
            gatherer: 2,
            task: 0,
        },
        at_0(8),
        Event::Lose { task: 1 },
        Event::Merge { into: 1, other: 1 },
        Event::Merge { into: 0, other: 2 },
    ];
    let by_turns = [
        at_0(7),
        at_1(6),
        at_0(5),
        at_1(4),
        MERGE,
        at_1(3),
        at_0(2),
        at_1(1),
        at_0(0),
    ];
    for (halts, first, second, wanted, runs) in [
        (true, &each[..], &[][..], (0, 255, 0), 10),
        (true, &lost[..], &[][..], (1, 5, 0), 9),
        (true, &again[..], &[][..], (1, 5, 0), 10),
        (true, &without_effect[..], &[][..], (1, 0, 0), 0),
        (
            false,
            &by_turns[..],
            &[at_1(0), at_0(1)][..],
            (0, 3, 255),
            10,
        ),
        (false, &by_turns[..], &[at_1(0)][..], (2, 1, 0), 9),
    ] {
        let watch = Watch::shared(alloc)?;
        let got = rehearsed(alloc, &watch, 8, halts, first, second)?;
        assert!(rt; got == wanted && watch.runs() == runs);
    }
    Ok(())
}

/// Whether an event is done or refused, as is wanted, after which these of the gatherings cover task 3.
fn leaves(
    alloc: Global,
    gatherings: &mut Vec<Gathering<Sum>>,
    inputs: &Arc<Inputs<Sum>, Global>,
    event: &Event,
    is_done: bool,
    covered: [bool; 2],
) -> bool
    requires { AreOver (arc_value inputs.now) gatherings.old.items }
    ensures { AreOver (arc_value inputs.now) gatherings.new.items }
{
    let is_right = apply(alloc, gatherings, inputs, event).is_ok() == is_done;
    let now = gatherings.iter().map(|gathering| gathering.covers(3));
    now.eq(covered) && is_right
}

/// Events of task 3, whether each is done, and which of two gatherings then cover the task.
static ONE_BY_ONE: [(Event, bool, [bool; 2]); 5] = [
    (ARRIVAL, false, [false, false]),
    (ARRIVAL, true, [false, true]),
    (Event::Lose { task: 3 }, true, [false, true]),
    (MERGE, true, [true, false]),
    (MERGE, true, [true, false]),
];

#[test]
fn events_one_by_one(rt: HostRuntime) -> Result<(), Fail> {
    let alloc = rt.alloc();
    // The first run is refused.
    let watch = Watch::refusing(alloc, 0..1)?;
    let inputs = shared_inputs_of(alloc, &watch, &NUMBERS)?;
    let mut gatherings = Vec::new(alloc);
    gatherings.push(Gathering::new(alloc, Arc::try_clone(&inputs)?)?)?;
    gatherings.push(Gathering::new(alloc, Arc::try_clone(&inputs)?)?)?;
    for (event, is_done, covered) in &ONE_BY_ONE {
        assert!(rt; leaves(alloc, &mut gatherings, &inputs, event, *is_done, *covered));
    }
    Ok(())
}
