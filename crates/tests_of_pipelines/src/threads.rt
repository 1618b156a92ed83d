//! Pipelines on threads: which runs are made, when, and what the gate hears.
ghost use Rattle.std.specs.Prelude.{◌≡◌, ◌<◌, ◌≤◌, length};
ghost use Rattle.base.specs.declared.limits.TheConstants.{MOST_TASKS};

use crate::link::{OneAndTwo, Sums, sums_of};
use pipelines::{Crew, FreeGate, Gate, OutOfMemory, run_pair};
use std::alloc::Global;
use std::sync::atomic::{AtomicBool, AtomicU64, Ordering};
use std::sync::{Arc, Wait};
use std::test::Fail;
use std::thread::Threads;
use tests_support::{Heard, Hold, NUMBERS, Warden, Watch, shared_inputs_of};

/// One worker and one gatherer.
pub(crate) const ONE: Crew = Crew {
    workers: 1,
    gatherers: 1,
};

/// Two workers and one gatherer.
pub(crate) const TWO: Crew = Crew {
    workers: 2,
    gatherers: 1,
};

/// What the runs over some numbers give, where the link goes on with 1 and 2 or halts. Each pipeline has a watch.
pub(crate) fn sums<G: Gate, R: Threads + Wait + Sync>(
    rt: &R,
    alloc: Global,
    watch: &Arc<Watch, Global>,
    second_watch: &Arc<Watch, Global>,
    numbers: &[u64],
    halts: bool,
    crew: Crew,
    gate: &G,
) -> Result<Sums, OutOfMemory>
    requires { length numbers.now ≤ MOST_TASKS }
{
    let link = OneAndTwo::of(second_watch, halts)?;
    let inputs = shared_inputs_of(alloc, watch, numbers)?;
    Ok(sums_of(run_pair(rt, alloc, inputs, &link, crew, gate)?))
}

/// Whether the crew gives the sum of the first numbers, and where the link doesn't halt that of 1 and 2, and compares
/// no input with another one.
fn is_right<R: Threads + Wait + Sync>(
    rt: &R,
    alloc: Global,
    count: usize,
    halts: bool,
    crew: Crew,
) -> Result<bool, OutOfMemory> {
    let watch = Watch::shared(alloc)?;
    let numbers = &NUMBERS[..count.min(8)];
    let got = sums(rt, alloc, &watch, &watch, numbers, halts, crew, &FreeGate)?;
    let sum = (1u128 << numbers.len()) - 1;
    let wanted = if halts { (sum, 0) } else { (3, sum) };
    Ok(got == wanted && watch.comparisons() == 0)
}

/// How many numbers, whether the link halts, and the crew's workers and gatherers.
static ASKED: [(usize, bool, u32, u32); 14] = [
    (8, false, 1, 1),
    (8, false, 2, 1),
    (8, true, 64, 1),
    (1, false, 64, 1),
    (0, false, 2, 1),
    (0, true, 1, 1),
    (8, false, 1, 8),
    (0, false, 1, 8),
    (8, false, 2, 2),
    (0, false, 2, 2),
    (8, true, 3, 2),
    (0, true, 3, 2),
    (8, false, 64, 8),
    (0, false, 64, 8),
];

#[test]
fn every_crew_gives_one_answer(rt: HostRuntime) -> Result<(), Fail> {
    for (count, halts, workers, gatherers) in &ASKED {
        let crew = Crew {
            workers: *workers,
            gatherers: *gatherers,
        };
        assert!(rt; is_right(&rt, rt.alloc(), *count, *halts, crew)?);
    }
    Ok(())
}

/// Holds what it hears against what it should, while one worker or the caller makes the runs one after the other. A
/// run of pipeline p, round r and task t is the number prt, and the end of pipeline p is p99. At the end of a pipeline
/// additions are no longer refused.
#[derive(Drop)]
pub(crate) struct Ledger {
    watch: Arc<Watch, Global>,
    wanted: &'static [u64],
    heard: AtomicU64,
    runs: AtomicU64,
    /// It heard something else, or of a run only after the run was made.
    is_wrong: AtomicBool,
}

impl Ledger {
    pub(crate) fn of(
        watch: &Arc<Watch, Global>,
        wanted: &'static [u64],
    ) -> Result<Self, OutOfMemory> {
        Ok(Ledger {
            watch: Arc::try_clone(watch)?,
            wanted,
            heard: AtomicU64::new(0),
            runs: AtomicU64::new(0),
            is_wrong: AtomicBool::new(false),
        })
    }

    /// Notes whether what it hears is right.
    fn hear(&self, is_in_time: bool, number: u64) {
        let at = self.heard.fetch_add(1, Ordering::SeqCst);
        match self.wanted.get(at as usize) {
            Some(wanted) if is_in_time && *wanted == number => {}
            _ => self.is_wrong.store(true, Ordering::SeqCst),
        }
    }

    /// Whether it heard all that it should and nothing else, and each run was made.
    pub(crate) fn is_right(&self) -> bool {
        !self.is_wrong.load(Ordering::SeqCst)
            && self.heard.load(Ordering::SeqCst) == self.wanted.len() as u64
            && self.runs.load(Ordering::SeqCst) == self.watch.runs()
    }
}

impl Gate for Ledger {
    fn before(&self, pipeline: u8, task: u32, round: u8) {
        let is_in_time = self.runs.fetch_add(1, Ordering::SeqCst) == self.watch.runs();
        let round = 100 * u64::from(pipeline) + 10 * u64::from(round);
        self.hear(is_in_time, round + u64::from(task));
    }

    fn done(&self, pipeline: u8) {
        self.hear(true, 100 * u64::from(pipeline) + 99);
        self.watch.refuse_additions(false);
    }
}

/// One worker runs each of eight tasks once, and then each of two.
pub(crate) const EACH_ONCE: [u64; 12] = [
    100, 101, 102, 103, 104, 105, 106, 107, 199, 200, 201, 299,
];

/// The same of the first pipeline.
pub(crate) const FIRST_ONCE: [u64; 9] = [100, 101, 102, 103, 104, 105, 106, 107, 199];

/// One worker runs each of four tasks twice, and then the caller does.
const RUN_AGAIN: [u64; 13] = [
    100, 101, 102, 103, 110, 111, 112, 113, 120, 121, 122, 123, 199,
];

/// The last of these but the first run of the caller's don't come.
const REFUSED: [u64; 9] = [100, 101, 102, 103, 110, 111, 112, 113, 120];

/// Whether one worker, to which the first growths are refused, gives these sums of the first numbers, or wants memory,
/// and a gate hears this.
fn is_heard<R: Threads + Wait + Sync>(
    rt: &R,
    alloc: Global,
    refuses: u64,
    count: usize,
    halts: bool,
    wanted: &'static [u64],
    gives: Option<Sums>,
) -> Result<bool, OutOfMemory>
    requires { count ≤ 8 }
{
    let watch = Watch::refusing(alloc, 0..refuses)?;
    let gate = Ledger::of(&watch, wanted)?;
    let got = sums(
        rt,
        alloc,
        &watch,
        &watch,
        &NUMBERS[..count],
        halts,
        ONE,
        &gate,
    );
    Ok(got.ok() == gives && gate.is_right())
}

#[test]
fn marked_tasks_are_passed_over(rt: HostRuntime) -> Result<(), Fail> {
    let (alloc, gives) = (rt.alloc(), Some((255, 0)));
    assert!(rt; is_heard(&rt, alloc, 0, 8, false, &EACH_ONCE, Some((3, 255)))?);
    // A second pipeline that doesn't run is never done.
    assert!(rt; is_heard(&rt, alloc, 0, 8, true, &FIRST_ONCE, gives)?);
    // A pipeline of one task has a worker, too.
    assert!(rt; is_heard(&rt, alloc, 0, 1, true, &[100, 199], Some((1, 0)))?);
    Ok(())
}

#[test]
fn lost_pieces_are_run_again(rt: HostRuntime) -> Result<(), Fail> {
    let (alloc, gives) = (rt.alloc(), Some((15, 0)));
    // The caller's own runs come after the eight that are refused, and the pipeline is done after the last of them, or
    // never if one is refused.
    assert!(rt; is_heard(&rt, alloc, 8, 4, true, &RUN_AGAIN, gives)?);
    assert!(rt; is_heard(&rt, alloc, 9, 4, true, &REFUSED, None)?);
    Ok(())
}

/// What can be added to the total only once the gate has heard that all tasks are covered is added.
#[test]
fn a_pipeline_is_done_before_its_total(rt: HostRuntime) -> Result<(), Fail> {
    let watch = Watch::shared(rt.alloc())?;
    watch.refuse_additions(true);
    let gate = Ledger::of(&watch, &FIRST_ONCE)?;
    let got = sums(&rt, rt.alloc(), &watch, &watch, &NUMBERS, true, ONE, &gate)?;
    assert!(rt; got == (255, 0));
    Ok(())
}

/// Whether two workers finish under these holds, each of which ends, and leave the caller no run of its
/// own.
fn finishes_under<R: Threads + Wait + Sync>(
    rt: &R,
    alloc: Global,
    holds: &[Hold],
) -> Result<bool, OutOfMemory> {
    let gate = Warden::of(alloc, holds)?;
    let watch = Watch::shared(alloc)?;
    let got = sums(rt, alloc, &watch, &watch, &NUMBERS, false, TWO, &gate)?;
    Ok(got == (3, 255) && gate.never_gave_up() && !gate.is_run_by_caller())
}

#[test]
fn two_tasks_meet(rt: HostRuntime) -> Result<(), Fail> {
    let holds = [
        Hold::first(1, 0, Heard::Task(1, 1)),
        Hold::first(1, 1, Heard::Task(1, 0)),
        Hold::first(2, 0, Heard::Task(2, 1)),
        Hold::first(2, 1, Heard::Task(2, 0)),
    ];
    assert!(rt; finishes_under(&rt, rt.alloc(), &holds)?);
    Ok(())
}

#[test]
fn slow_task_given_again(rt: HostRuntime) -> Result<(), Fail> {
    let holds = [
        Hold::first(1, 0, Heard::Done(1)),
        Hold::first(2, 0, Heard::Done(2)),
    ];
    assert!(rt; finishes_under(&rt, rt.alloc(), &holds)?);
    Ok(())
}

#[test]
fn slow_worker_left_behind(rt: HostRuntime) -> Result<(), Fail> {
    let holds = [Hold::first(1, 0, Heard::Pipeline(2))];
    assert!(rt; finishes_under(&rt, rt.alloc(), &holds)?);
    Ok(())
}

#[test]
fn runs_at_once(rt: HostRuntime) -> Result<(), Fail> {
    let alloc = rt.alloc();
    let (first, second) = (Watch::meeting(alloc)?, Watch::meeting(alloc)?);
    let got = sums(&rt, alloc, &first, &second, &[1, 2], false, TWO, &FreeGate)?;
    assert!(rt; got == (3, 3) && !first.gave_up() && !second.gave_up());
    Ok(())
}

/// Whether all runs of this crew begin while the first piece is being added.
fn runs_ahead<R: Threads + Wait + Sync>(
    rt: &R,
    alloc: Global,
    crew: Crew,
) -> Result<bool, OutOfMemory> {
    let watch = Watch::shared(alloc)?;
    watch.hold_additions(8, 0);
    let got = sums(rt, alloc, &watch, &watch, &NUMBERS, true, crew, &FreeGate);
    Ok(got.ok() == Some((255, 0)) && !watch.gave_up())
}

#[test]
fn workers_run_ahead_of_their_gatherer(rt: HostRuntime) -> Result<(), Fail> {
    assert!(rt; runs_ahead(&rt, rt.alloc(), ONE)?);
    assert!(rt; runs_ahead(&rt, rt.alloc(), TWO)?);
    Ok(())
}

#[test]
fn the_most_inputs_have_room(rt: HostRuntime) -> Result<(), Fail> {
    let alloc = rt.alloc();
    let numbers = vec![in alloc; 3u64; 65_536]?;
    let watch = Watch::shared(alloc)?;
    let got = sums(&rt, alloc, &watch, &watch, &numbers, true, ONE, &FreeGate)?;
    assert!(rt; got == (196_608, 0));
    Ok(())
}
