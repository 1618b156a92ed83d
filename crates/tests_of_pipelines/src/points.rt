//! One point of a run in turn, which is a task of a pipeline in a round: a worker is held there, or memory is
//! refused.
ghost use Rattle.std.specs.Prelude.{◌≡◌, ◌<◌};

use crate::link::Sums;
use crate::threads::sums;
use pipelines::{Crew, OutOfMemory};
use std::alloc::Global;
use std::sync::Wait;
use std::test::Fail;
use std::thread::Threads;
use tests_support::{Heard, Hold, NUMBERS, Warden, Watch};

/// Workers and gatherers.
static CREWS: [(u32, u32); 4] = [(1, 1), (2, 1), (4, 3), (64, 8)];

/// The tasks of two pipelines over 1, 2 and 4, and over 1 and 2: the pipeline and the task of each.
static TASKS: [(u8, u32); 5] = [(1, 0), (1, 1), (1, 2), (2, 0), (2, 1)];

/// The sums of 1 and 2, and of 1, 2 and 4.
const RIGHT: Option<Sums> = Some((3, 7));

/// What a crew gives under this gate, while memory is refused to some runs of one task.
fn sums_under<R: Threads + Wait + Sync>(
    rt: &R,
    alloc: Global,
    crew: Crew,
    gate: &Warden,
    (pipeline, task): (u8, u32),
    refused: u64,
) -> Result<Option<Sums>, OutOfMemory> {
    let number = NUMBERS.get(task as usize).copied().unwrap_or(0);
    let refusing = Watch::refusing_runs(alloc, number, refused)?;
    let other = Watch::shared(alloc)?;
    let (first, second) = if pipeline == 1 {
        (&refusing, &other)
    } else {
        (&other, &refusing)
    };
    Ok(sums(rt, alloc, first, second, &NUMBERS[..3], false, crew, gate).ok())
}

/// Whether the sums come where whoever runs a task in this round is held until its pipeline is done. That comes if
/// another worker is there to bring the task, and one gatherer alone, which waits for no worker. If it can't come, the
/// run is held for some turns, once all other tasks are given.
fn is_held<R: Threads + Wait + Sync>(
    rt: &R,
    alloc: Global,
    crew: Crew,
    (pipeline, task): (u8, u32),
    round: u8,
) -> Result<bool, OutOfMemory> {
    let is_alone = crew.workers == 1 || round == 2;
    let is_left_behind = !is_alone && crew.gatherers == 1;
    let point = Hold {
        pipeline,
        task,
        round,
        until: Heard::Done(pipeline),
        turns: if is_left_behind { 1_000_000 } else { 100 },
    };
    // The second giving comes while the first is held. If nobody else is there, it comes once the first
    // is refused, and the caller's own run once both are.
    let (until, refused) = if is_alone {
        (Heard::Task(pipeline, task), u64::from(round))
    } else {
        (Heard::Again(pipeline, task), 0)
    };
    let gate = Warden::of(alloc, &[Hold::first(pipeline, task, until), point])?;
    let is_right = sums_under(rt, alloc, crew, &gate, (pipeline, task), refused)? == RIGHT;
    let is_kept = !gate.gave_up(0) && gate.gave_up(1) != is_left_behind;
    Ok(is_right && is_kept && gate.is_run_by_caller() == (round == 2))
}

#[test]
fn one_held_at_each_point(rt: HostRuntime) -> Result<(), Fail> {
    for (workers, gatherers) in &CREWS {
        let crew = Crew {
            workers: *workers,
            gatherers: *gatherers,
        };
        for task in &TASKS {
            for round in 0..3 {
                assert!(rt; is_held(&rt, rt.alloc(), crew, *task, round)?);
            }
        }
    }
    Ok(())
}

/// Whether the sums or the want of memory come where it is refused to this many runs of a task: to its first giving, to
/// both, and to the caller's own run too.
fn is_refused<R: Threads + Wait + Sync>(
    rt: &R,
    alloc: Global,
    crew: Crew,
    task: (u8, u32),
    refused: u64,
) -> Result<bool, OutOfMemory> {
    let gate = Warden::of(alloc, &[])?;
    let wanted = if refused < 3 { RIGHT } else { None };
    let is_right = sums_under(rt, alloc, crew, &gate, task, refused)? == wanted;
    Ok(is_right && gate.is_run_by_caller() == (refused > 1))
}

#[test]
fn memory_refused_at_each_point(rt: HostRuntime) -> Result<(), Fail> {
    for (workers, gatherers) in &CREWS {
        let crew = Crew {
            workers: *workers,
            gatherers: *gatherers,
        };
        for task in &TASKS {
            for refused in 1..4 {
                assert!(rt; is_refused(&rt, rt.alloc(), crew, *task, refused)?);
            }
        }
    }
    Ok(())
}
