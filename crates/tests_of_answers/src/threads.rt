//! A day that is answered by few workers or by several gatherers, while a gate holds or counts runs.
use crate::answering::{
    BARS, SALES, TWO, WAYS, Way, is_answered, is_answered_freely, is_answered_under,
};
use executor::{Crew, Gate};
use std::alloc::Global;
use std::sync::Wait;
use std::sync::atomic::{AtomicU64, Ordering};
use std::test::Fail;
use std::thread::Threads;
use tests_support::{Counter, Heard, Hold};

/// This many workers, and one gatherer.
fn crew_of(workers: u32) -> Option<Crew> {
    Some(Crew {
        workers: workers.clamp(1, 64),
        gatherers: 1,
    })
}

/// Whether one worker runs each of four tasks and of 64 partitions once, at its first giving, and nothing else.
fn is_each_run_once<R: Threads + Wait + Sync>(
    rt: &R,
    alloc: Global,
    way: Way,
) -> Result<bool, Fail> {
    let gate = Counter::new(alloc, 4, 64)?;
    let is_answered = is_answered(rt, alloc, way, SALES, 64, crew_of(1), &gate)?;
    Ok(is_answered && gate.is_each_run_once())
}

#[test]
fn one_worker_runs_each_task_once(rt: HostRuntime) -> Result<(), Fail> {
    assert!(rt; is_answered_freely(&rt, rt.alloc(), SALES, 64, Some(TWO))?);
    for way in WAYS {
        assert!(rt; is_each_run_once(&rt, rt.alloc(), way)?);
    }
    Ok(())
}

#[test]
fn two_tasks_meet(rt: HostRuntime) -> Result<(), Fail> {
    let holds = [
        Hold::first(1, 0, Heard::Task(1, 1)),
        Hold::first(1, 1, Heard::Task(1, 0)),
        Hold::first(2, 0, Heard::Task(2, 1)),
        Hold::first(2, 1, Heard::Task(2, 0)),
    ];
    assert!(rt; is_answered_under(&rt, rt.alloc(), &holds, SALES, TWO, false)?);
    Ok(())
}

#[test]
fn slow_task_given_again(rt: HostRuntime) -> Result<(), Fail> {
    let holds = [
        Hold::first(1, 0, Heard::Done(1)),
        Hold::first(2, 0, Heard::Done(2)),
    ];
    assert!(rt; is_answered_under(&rt, rt.alloc(), &holds, SALES, TWO, false)?);
    Ok(())
}

#[test]
fn slow_worker_left_behind(rt: HostRuntime) -> Result<(), Fail> {
    let holds = [Hold::first(1, 0, Heard::Pipeline(2))];
    assert!(rt; is_answered_under(&rt, rt.alloc(), &holds, SALES, TWO, false)?);
    Ok(())
}

/// Counts the runs of the caller's thread, and those of workers.
#[derive(Drop)]
struct Runs {
    by_caller: AtomicU64,
    by_workers: AtomicU64,
}

impl Gate for Runs {
    fn before(&self, _pipeline: u8, _task: u32, round: u8) {
        let runs = if round == 2 {
            &self.by_caller
        } else {
            &self.by_workers
        };
        runs.fetch_add(1, Ordering::SeqCst);
    }

    fn done(&self, _pipeline: u8) {}
}

/// Whether the caller's thread alone answers, with this many runs.
fn is_answered_alone<R: Threads + Wait + Sync>(
    rt: &R,
    alloc: Global,
    way: Way,
    runs: u64,
) -> Result<bool, Fail> {
    let gate = Runs {
        by_caller: AtomicU64::new(0),
        by_workers: AtomicU64::new(0),
    };
    let is_answered = is_answered(rt, alloc, way, SALES, 64, None, &gate)?;
    let (by_caller, by_workers) = (&gate.by_caller, &gate.by_workers);
    let by_workers = by_workers.load(Ordering::SeqCst);
    Ok(is_answered && by_caller.load(Ordering::SeqCst) == runs && by_workers == 0)
}

/// Four morsels or one block, and each of 64 partitions.
#[test]
fn the_caller_answers_a_short_day_alone(rt: HostRuntime) -> Result<(), Fail> {
    assert!(rt; is_answered_alone(&rt, rt.alloc(), Way::Morsels, 68)?);
    assert!(rt; is_answered_alone(&rt, rt.alloc(), Way::Blocks, 65)?);
    Ok(())
}

/// Two workers, and two gatherers.
const PAIRS: Crew = Crew {
    workers: 2,
    gatherers: 2,
};

#[test]
fn every_number_of_gatherers_gives_one_answer(rt: HostRuntime) -> Result<(), Fail> {
    for (workers, gatherers) in [(1, 8), (2, 2), (3, 2), (64, 8)] {
        let crew = Some(Crew { workers, gatherers });
        assert!(rt; is_answered_freely(&rt, rt.alloc(), SALES, 64, crew)?);
    }
    Ok(())
}

/// One task of each pipeline is given again while its first run is held.
#[test]
fn overlap_over_two_gatherers(rt: HostRuntime) -> Result<(), Fail> {
    let holds = [
        Hold::first(1, 0, Heard::Again(1, 0)),
        Hold::first(2, 1, Heard::Again(2, 1)),
    ];
    assert!(rt; is_answered_under(&rt, rt.alloc(), &holds, BARS, PAIRS, false)?);
    Ok(())
}

/// With one gatherer the second pipeline wouldn't wait for a slow worker of the first.
#[test]
fn several_gatherers_wait_for_all_workers(rt: HostRuntime) -> Result<(), Fail> {
    let holds = [Hold::first(1, 0, Heard::Pipeline(2))];
    assert!(rt; is_answered_under(&rt, rt.alloc(), &holds, SALES, PAIRS, true)?);
    Ok(())
}
