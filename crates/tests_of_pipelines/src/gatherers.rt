//! Gatherers, on the test's thread and on threads of their own: what each gathers, when it ends, and that
//! nothing is lost where they are merged or where no worker is left.
ghost use Rattle.std.specs.Prelude.{◌≡◌, ◌≤◌, length};
ghost use Rattle.base.specs.declared.limits.TheConstants.{MOST_TASKS};

use crate::link::Sums;
use crate::pieces::{Eight, gathered, piece_of};
use crate::threads::{TWO, sums};
use crossbeam_channel::Sender;
use pipelines::{
    Crew, Gate, Gatherer, Gathering, OutOfMemory, Piece, channel_of, gather_all,
    gather_until_covered, merge_all, run_missing, start_gatherers,
};
use std::alloc::Global;
use std::sync::atomic::{AtomicBool, AtomicU64, Ordering};
use std::sync::{Arc, Wait};
use std::test::Fail;
use std::thread;
use std::thread::Threads;
use tests_support::{NUMBERS, Sum, Watch, hold, shared_inputs_of};

/// A run: its pipeline, its task and its round.
pub(crate) type Run = (u8, u32, u8);

/// Holds some runs, each until another one begins, and counts the runs of each round.
#[derive(Drop)]
pub(crate) struct Order {
    /// What is held, and until what begins.
    holds: &'static [(Run, Run)],
    begun: [AtomicBool; 3],
    rounds: [AtomicU64; 3],
    gave_up: AtomicBool,
}

impl Order {
    pub(crate) fn new(holds: &'static [(Run, Run)]) -> Self {
        Order {
            holds,
            begun: [
                AtomicBool::new(false),
                AtomicBool::new(false),
                AtomicBool::new(false),
            ],
            rounds: [AtomicU64::new(0), AtomicU64::new(0), AtomicU64::new(0)],
            gave_up: AtomicBool::new(false),
        }
    }

    /// Whether a run was held in vain.
    pub(crate) fn gave_up(&self) -> bool {
        self.gave_up.load(Ordering::SeqCst)
    }

    /// How many runs of each round began.
    pub(crate) fn rounds(&self) -> [u64; 3] {
        let [first, second, own] = &self.rounds;
        [
            first.load(Ordering::SeqCst),
            second.load(Ordering::SeqCst),
            own.load(Ordering::SeqCst),
        ]
    }
}

impl Gate for Order {
    fn before(&self, pipeline: u8, task: u32, round: u8) {
        if let Some(count) = self.rounds.get(round as usize) {
            count.fetch_add(1, Ordering::SeqCst);
        }
        let run = (pipeline, task, round);
        for ((_, until), begun) in self.holds.iter().zip(&self.begun) {
            if *until == run {
                begun.store(true, Ordering::SeqCst);
            }
        }
        for ((held, _), begun) in self.holds.iter().zip(&self.begun) {
            if *held == run {
                hold(begun, &self.gave_up);
            }
        }
    }

    fn done(&self, _pipeline: u8) {}
}

/// Two workers, each with a gatherer of its own.
pub(crate) const TWO_AND_TWO: Crew = Crew {
    workers: 2,
    gatherers: 2,
};

/// One task of each pipeline comes to both gatherers: it is given again while its first run is held.
pub(crate) const OVERLAP: [(Run, Run); 2] = [((1, 0, 0), (1, 0, 1)), ((2, 1, 0), (2, 1, 1))];

/// Of three tasks each gatherer has one that the other hasn't, and both have the last.
const TURNS: [(Run, Run); 3] = [
    ((1, 0, 0), (1, 1, 0)),
    ((1, 1, 0), (1, 2, 0)),
    ((1, 2, 0), (1, 2, 1)),
];

/// Whether a crew, to which the first growths are refused, gives these sums of the first numbers under an order, or
/// wants memory, and makes so many runs of each round.
fn is_ordered<R: Threads + Wait + Sync>(
    rt: &R,
    alloc: Global,
    refuses: u64,
    numbers: &[u64],
    halts: bool,
    crew: Crew,
    holds: &'static [(Run, Run)],
    gives: Option<Sums>,
    rounds: [u64; 3],
) -> Result<bool, OutOfMemory>
    requires { length numbers.now ≤ MOST_TASKS }
{
    let gate = Order::new(holds);
    let watch = Watch::refusing(alloc, 0..refuses)?;
    let got = sums(rt, alloc, &watch, &watch, numbers, halts, crew, &gate).ok();
    Ok(got == gives && gate.rounds() == rounds && !gate.gave_up())
}

#[test]
fn what_each_gathered_is_merged(rt: HostRuntime) -> Result<(), Fail> {
    let (alloc, crew, three) = (rt.alloc(), TWO_AND_TWO, &NUMBERS[..3]);
    let (both, first) = (Some((3, 255)), Some((7, 0)));
    assert!(rt;
        is_ordered(
            &rt,
            alloc,
            0,
            &NUMBERS,
            false,
            crew,
            &OVERLAP,
            both,
            [10, 2, 0]
        )?
    );
    assert!(rt; is_ordered(&rt, alloc, 0, three, true, crew, &TURNS, first, [3, 1, 0])?);
    Ok(())
}

/// Task 0 comes to both gatherers, so both add its value as soon as they have it: one while the other waits in its
/// addition.
#[test]
fn gatherers_at_once(rt: HostRuntime) -> Result<(), Fail> {
    let gate = Order::new(&OVERLAP);
    let watch = Watch::shared(rt.alloc())?;
    watch.hold_additions(0, 2);
    let numbers = &NUMBERS[..3];
    let got = sums(
        &rt,
        rt.alloc(),
        &watch,
        &watch,
        numbers,
        true,
        TWO_AND_TWO,
        &gate,
    )?;
    assert!(rt; got == (7, 0) && !gate.gave_up() && !watch.gave_up());
    Ok(())
}

/// Whether the first runs are refused to the workers, which make each of four tasks twice, and the next ones are the
/// caller's own.
fn is_made_again<R: Threads + Wait + Sync>(
    rt: &R,
    alloc: Global,
    crew: Crew,
) -> Result<bool, OutOfMemory> {
    let (four, sums) = (&NUMBERS[..4], Some((15, 0)));
    Ok(
        is_ordered(rt, alloc, 8, four, true, crew, &[], sums, [4, 4, 4])?
            && is_ordered(rt, alloc, 9, four, true, crew, &[], None, [4, 4, 1])?,
    )
}

#[test]
fn refused_runs_are_made_again_by_the_caller(rt: HostRuntime) -> Result<(), Fail> {
    assert!(rt; is_made_again(&rt, rt.alloc(), TWO)?);
    assert!(rt; is_made_again(&rt, rt.alloc(), TWO_AND_TWO)?);
    Ok(())
}

/// A piece to be sent: the worker that has it, its task, and the number that it is run on.
type Sent = (usize, u32, u64);

/// Whether these pieces are sent.
fn are_sent<R: Wait>(
    rt: &R,
    alloc: Global,
    own: &Sender<Piece<Sum>>,
    others: &Vec<Gatherer<Sum>>,
    watch: &Arc<Watch, Global>,
    pieces: &[Sent],
) -> Result<bool, OutOfMemory> {
    for (worker, task, number) in pieces {
        let piece = piece_of(alloc, watch, *task, *number)?;
        if channel_of(*worker, own, others).send(rt, piece).is_err() {
            return Ok(false);
        }
    }
    Ok(true)
}

/// Whether a gathering of two tasks, of 1 and 2, ends with the last of these pieces.
fn ends_with<R: Wait>(rt: &R, alloc: Global, pieces: &[Sent]) -> Result<bool, OutOfMemory> {
    let watch = Watch::shared(alloc)?;
    let inputs = shared_inputs_of(alloc, &watch, &[1, 2])?;
    let mut gathering = gathered(alloc, &inputs, &[])?;
    let (to, from) = crossbeam_channel::unbounded::<Piece<Sum>, Global>(alloc)?;
    let are_sent = are_sent(rt, alloc, &to, &Vec::new(alloc), &watch, pieces)?;
    drop(to);
    gather_until_covered(rt, &mut gathering, &from, 2);
    Ok(gathering.first_missing().is_none() && are_sent)
}

/// One that is sent again, one of another task's input, and one of a task that there isn't.
static ONE_TOO_MANY: [[Sent; 3]; 3] = [
    [(0, 0, 1), (0, 0, 1), (0, 1, 2)],
    [(0, 0, 2), (0, 0, 1), (0, 1, 2)],
    [(0, 2, 2), (0, 1, 2), (0, 0, 1)],
];

#[test]
fn gathering_ends_with_the_last_task(rt: HostRuntime) -> Result<(), Fail> {
    for pieces in &ONE_TOO_MANY {
        assert!(rt; ends_with(&rt, rt.alloc(), pieces)?);
    }
    Ok(())
}

/// Which of eight tasks a gathering covers.
fn covered(gathering: &Gathering<Sum>) -> [bool; 8] {
    let mut covered = [false; 8];
    for (task, is_covered) in covered.iter_mut().enumerate() {
        *is_covered = gathering.covers(task as u32);
    }
    covered
}

/// What the caller's gathering covers of these pieces, alone and with those of all other gatherers.
fn covered_by<R: Threads + Wait + Sync>(
    rt: &R,
    alloc: Global,
    eight: &Eight,
    gatherers: u32,
    pieces: &[Sent],
) -> Result<[[bool; 8]; 2], OutOfMemory> {
    let mut gathering = gathered(alloc, &eight.inputs, &[])?;
    let (to, from) = crossbeam_channel::unbounded::<Piece<Sum>, Global>(alloc)?;
    thread::scope(
        thread::scope_env(),
        rt,
        |scope| -> Result<[[bool; 8]; 2], OutOfMemory> {
            let others = start_gatherers(scope, rt, alloc, &eight.inputs, gatherers);
            are_sent(rt, alloc, &to, &others, &eight.watch, pieces)?;
            drop(to);
            gather_all(rt, &mut gathering, &from);
            let own = covered(&gathering);
            merge_all(rt, &mut gathering, others);
            Ok([own, covered(&gathering)])
        },
    )
}

#[test]
fn each_worker_has_its_gatherer(rt: HostRuntime) -> Result<(), Fail> {
    let eight = Eight::of(rt.alloc())?;
    // Of five workers each brings the task of its number.
    let pieces = [(0, 0, 1), (1, 1, 2), (2, 2, 4), (3, 3, 8), (4, 4, 16)];
    let own = [true, false, false, true, false, false, false, false];
    let all = [true, true, true, true, true, false, false, false];
    assert!(rt; covered_by(&rt, rt.alloc(), &eight, 3, &pieces)? == [own, all]);
    Ok(())
}

/// The channel of a gatherer on a thread of its own takes pieces while the first one is being added.
#[test]
fn pieces_wait_in_a_gatherers_channel(rt: HostRuntime) -> Result<(), Fail> {
    let eight = Eight::of(rt.alloc())?;
    eight.watch.hold_additions(4, 0);
    let pieces = [(1, 0, 1), (1, 1, 2), (1, 2, 4), (1, 3, 8)];
    let all = [true, true, true, true, false, false, false, false];
    let covered = covered_by(&rt, rt.alloc(), &eight, 2, &pieces)?;
    assert!(rt; covered == [[false; 8], all] && !eight.watch.gave_up());
    Ok(())
}

/// How many runs of each round are made, as if no thread, no seat or no dispatcher could be had, where nothing was
/// gathered, or the piece of the first task.
fn runs_of_caller<R: Wait>(rt: &R, alloc: Global, is_begun: bool) -> Result<[u64; 3], OutOfMemory> {
    let gate = Order::new(&[]);
    let eight = Eight::of(alloc)?;
    let mut gathering = Gathering::new(alloc, Arc::try_clone(&eight.inputs)?)?;
    if is_begun {
        let _ = gathering.file(piece_of(alloc, &eight.watch, 0, 1)?);
    }
    let (to, from) = crossbeam_channel::unbounded::<Piece<Sum>, Global>(alloc)?;
    drop(to);
    gather_until_covered(rt, &mut gathering, &from, 8);
    run_missing(alloc, &mut gathering, &eight.inputs, 1, &gate)?;
    Ok(gate.rounds())
}

#[test]
fn no_worker_is_left(rt: HostRuntime) -> Result<(), Fail> {
    assert!(rt; runs_of_caller(&rt, rt.alloc(), false)? == [0, 0, 8]);
    assert!(rt; runs_of_caller(&rt, rt.alloc(), true)? == [0, 0, 7]);
    Ok(())
}
