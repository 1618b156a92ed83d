//! The first pipeline alone, and both on the caller's thread alone.
use crate::gatherers::{Order, Run, TWO_AND_TWO};
use crate::link::{OneAndTwo, sums_of};
use crate::pieces::Eight;
use crate::threads::{FIRST_ONCE, Ledger, ONE, TWO};
use pipelines::{Crew, OutOfMemory, run_alone, run_first};
use std::alloc::Global;
use std::sync::Wait;
use std::test::Fail;
use std::thread::Threads;

#[test]
fn one_pipeline_gives_each_task_to_a_worker(rt: HostRuntime) -> Result<(), Fail> {
    let eight = Eight::of(rt.alloc())?;
    let gate = Ledger::of(&eight.watch, &FIRST_ONCE)?;
    let sum = run_first(&rt, rt.alloc(), &eight.inputs, ONE, &gate)?;
    assert!(rt; sum == 255 && gate.is_right());
    Ok(())
}

/// Two of the tasks, each held until the other begins.
const TOGETHER: [(Run, Run); 2] = [((1, 1, 0), (1, 2, 0)), ((1, 2, 0), (1, 1, 0))];

/// Whether this crew meets in two tasks, and gives the sum.
fn shares<R: Threads + Wait + Sync>(
    rt: &R,
    alloc: Global,
    crew: Crew,
) -> Result<bool, OutOfMemory> {
    let gate = Order::new(&TOGETHER);
    let eight = Eight::of(alloc)?;
    let sum = run_first(rt, alloc, &eight.inputs, crew, &gate)?;
    Ok(sum == 255 && gate.rounds()[0] == 8 && !gate.gave_up())
}

#[test]
fn workers_share_one_pipeline(rt: HostRuntime) -> Result<(), Fail> {
    assert!(rt; shares(&rt, rt.alloc(), TWO)?);
    assert!(rt; shares(&rt, rt.alloc(), TWO_AND_TWO)?);
    Ok(())
}

/// The caller runs each of eight tasks, and then each of two.
const BY_CALLER: [u64; 12] = [120, 121, 122, 123, 124, 125, 126, 127, 199, 220, 221, 299];

#[test]
fn the_caller_runs_both_pipelines_alone(rt: HostRuntime) -> Result<(), Fail> {
    let eight = Eight::of(rt.alloc())?;
    let gate = Ledger::of(&eight.watch, &BY_CALLER)?;
    let link = OneAndTwo::of(&eight.watch, false)?;
    let sums = sums_of(run_alone(rt.alloc(), &eight.inputs, &link, &gate)?);
    assert!(rt; sums == (3, 255) && gate.is_right());
    Ok(())
}
