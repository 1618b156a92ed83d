//! The gatherers of a pipeline: the caller's thread, and others on threads of their own.
ghost use Rattle.std.specs.Prelude.{◌≡◌};

use crossbeam_channel::{Receiver, Sender};
use gathering::{Filed, Gathering, Inputs, Piece, Work};
use std::alloc::Global;
use std::sync::{Arc, Wait};
use std::thread::{JoinHandle, Scope, Threads};

/// A gatherer on a thread of its own, and a sender into its channel.
#[derive(Drop)]
pub struct Gatherer<W: Work> {
    to: Sender<Piece<W>>,
    thread: JoinHandle<Gathering<W>>,
}

/// Starts all gatherers but the caller's thread, which is gatherer 0. One that can't be started is left out.
pub fn start_gatherers<'s, E, W: Work + 's, R: Threads + Wait + Sync>(
    scope: &Scope<'s, E>,
    rt: &'s R,
    alloc: Global,
    inputs: &Arc<Inputs<W>, Global>,
    gatherers: u32,
) -> Vec<Gatherer<W>> {
    let mut others = Vec::new(alloc);
    for _ in 1..gatherers {
        if let Some(gatherer) = start_gatherer(scope, rt, alloc, inputs) {
            let _ = others.push(gatherer);
        }
    }
    others
}

/// Starts one gatherer with a channel and a gathering of its own, if it can be started.
fn start_gatherer<'s, E, W: Work + 's, R: Threads + Wait + Sync>(
    scope: &Scope<'s, E>,
    rt: &'s R,
    alloc: Global,
    inputs: &Arc<Inputs<W>, Global>,
) -> Option<Gatherer<W>> {
    let inputs = Arc::try_clone(inputs).ok()?;
    let gathering = Gathering::new(alloc, inputs).ok()?;
    let (to, from) = crossbeam_channel::unbounded::<Piece<W>, Global>(alloc).ok()?;
    let thread = scope.spawn(move || gathered(rt, gathering, from)).ok()?;
    Some(Gatherer { to, thread })
}

/// The gathering, with what came until no worker was left.
fn gathered<W: Work, R: Wait>(
    rt: &R,
    mut gathering: Gathering<W>,
    from: Receiver<Piece<W>>,
) -> Gathering<W> {
    gather_all(rt, &mut gathering, &from);
    gathering
}

/// The channel that a worker sends into: that of its number modulo the gatherers.
pub fn channel_of<'a, W: Work>(
    worker: usize,
    own: &'a Sender<Piece<W>>,
    others: &'a Vec<Gatherer<W>>,
) -> &'a Sender<Piece<W>> {
    let gatherer = worker % (others.len() + 1);
    if gatherer == 0 {
        own
    } else {
        &others[gatherer - 1].to
    }
}

/// Files what comes, until all tasks are covered or no worker is left. A piece of other work is dropped.
pub fn gather_until_covered<W: Work, R: Wait>(
    rt: &R,
    gathering: &mut Gathering<W>,
    from: &Receiver<Piece<W>>,
    tasks: u32,
)
    ensures { gathering.new.inputs ≡ gathering.old.inputs }
{
    let mut missing = count_missing(gathering, tasks);
    for _ in rt.forever() {
        if missing == 0 {
            break;
        }
        let Ok(piece) = from.recv(rt) else {
            break;
        };
        if let Ok(Filed::New) = gathering.file(piece) {
            missing -= 1;
        }
    }
}

/// How many of the first `tasks` tasks are missing.
fn count_missing<W: Work>(gathering: &Gathering<W>, tasks: u32) -> u32 {
    let mut missing = 0u32;
    for task in 0..tasks {
        missing = missing.saturating_add(u32::from(!gathering.covers(task)));
    }
    missing
}

/// Files what comes, until no worker is left. A piece of other work is dropped.
pub fn gather_all<W: Work, R: Wait>(rt: &R, gathering: &mut Gathering<W>, from: &Receiver<Piece<W>>)
    ensures { gathering.new.inputs ≡ gathering.old.inputs }
{
    for piece in from.iter(rt) {
        let _ = gathering.file(piece);
    }
}

/// Waits until the channels of all other gatherers have ended, and then merges what they gathered. A
/// gathering over other inputs is dropped.
pub fn merge_all<W: Work, R: Threads>(
    rt: &R,
    gathering: &mut Gathering<W>,
    mut others: Vec<Gatherer<W>>,
)
    ensures { gathering.new.inputs ≡ gathering.old.inputs }
{
    let Some(Gatherer { to, thread }) = others.pop() else {
        return;
    };
    drop(to);
    let other = thread.join(rt);
    merge_all(rt, gathering, others);
    let _ = gathering.merge(other);
}
