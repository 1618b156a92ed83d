//! A worker's whole run.
ghost use Rattle.std.specs.Prelude.{◌≡◌, ◌<◌, ℕ, ◌++◌, [], ◌∷◌, length, Contains, IsFalse, MatchBool, MatchOption};
ghost use Rattle.dispatcher.specs.Seats.{tasks_of, claims, marked_tasks, seen_tasks, IsSeatOf, IsSameSeat, WasGiven};
ghost use Rattle.base.specs.declared.limits.TheConstants.{MOST_SEATS};
ghost use Rattle.workers.specs.Workers.{IsDone, TookPieces};

use crate::gate::Gate;
use crate::port::Port;
use base::limits::MOST_SEATS;
use dispatcher::{Claim, Dispatcher, Seat};
use gathering::{Inputs, Piece, Work};
use std::alloc::Global;
use std::sync::Arc;
use std::thread::yield_now;

/// How often a worker looks for the mark of a task that it is given again, for each other worker that may be at work,
/// and at most: where processors are few, these take turns. Most runs have ended by then. If one hasn't, the task is
/// run a second time, so that nothing waits for ever.
const LOOKS_A_WORKER: u64 = 1 << 10;

const MOST_LOOKS: u64 = LOOKS_A_WORKER * MOST_SEATS as u64;

/// Claims until no task is left, and runs each task that is not marked yet: it calls the gate,
/// makes the task's piece, sends it, and marks the task once the port took it.
///
/// It answers how many pieces were refused, by memory or by the port: of that many of its claims
/// the task was left unmarked. It waits for what the gate and the port wait for.
pub fn work<W: Work, P: Port<Piece<W>>, G: Gate>(
    alloc: Global,
    dispatcher: &Dispatcher,
    seat: &mut Seat,
    inputs: &Inputs<W>,
    port: &mut P,
    pipeline: u8,
    gate: &G,
) -> u32
    requires tasks { tasks_of dispatcher.now ≡ length inputs.now }
    requires own { IsSeatOf dispatcher.now seat.old }
    requires unclaimed { claims seat.old ≡ [] }
    requires unmarked { marked_tasks seat.old ≡ [] }
    ensures same { IsSameSeat seat.old seat.new }
    ensures done { IsDone (tasks_of dispatcher.now) result seat.old seat.new }
    ensures sent { P.Tells
        → TookPieces inputs.now (P.taken port.old) (P.taken port.new) (marked_tasks seat.new) }
    ensures seen { result ≡ 0 → (task : ℕ) → WasGiven (tasks_of dispatcher.now) seat.new task
        → Contains (seen_tasks seat.new) task }
{
    let tasks = u64::from(inputs.count());
    let mut refused = 0;
    while let Claim::Task { claim, task } = dispatcher.claim(seat) {
        let round = if claim < tasks { 0 } else { 1 };
        if !is_done(dispatcher, seat, task, round) {
            gate.before(pipeline, task, round);
            match serve(alloc, inputs, port, task) {
                Some(()) => dispatcher.mark(seat, task),
                None => refused += 1,
            }
        }
    }
    refused
}

/// Whether the task is marked. In the second round it is looked at for a while: mostly its first run is about to end.
fn is_done(dispatcher: &Dispatcher, seat: &mut Seat, task: u32, round: u8) -> bool
    requires own { IsSeatOf dispatcher.now seat.old }
    requires task { task < tasks_of dispatcher.now }
    ensures same { IsSameSeat seat.old seat.new }
    ensures claims { claims seat.new ≡ claims seat.old }
    ensures marked { marked_tasks seat.new ≡ marked_tasks seat.old }
    ensures seen { MatchBool result
        (seen_tasks seat.new ≡ seen_tasks seat.old ++ task ∷ [])
        (seen_tasks seat.new ≡ seen_tasks seat.old) }
{
    let looks = if round == 0 { 0 } else { MOST_LOOKS };
    for look in 0..looks {
        if dispatcher.is_marked(seat, task) {
            return true;
        }
        if look >= LOOKS_A_WORKER * others_at_work(dispatcher, seat) {
            return false;
        }
        yield_now();
    }
    dispatcher.is_marked(seat, task)
}

/// How many other workers may still be at work: those that didn't find yet that no task is left. One that was never
/// started is among them.
fn others_at_work(dispatcher: &Dispatcher, seat: &mut Seat) -> u64
    requires own { IsSeatOf dispatcher.now seat.old }
    ensures same { IsSameSeat seat.old seat.new }
    ensures claims { claims seat.new ≡ claims seat.old }
    ensures marked { marked_tasks seat.new ≡ marked_tasks seat.old }
    ensures seen { seen_tasks seat.new ≡ seen_tasks seat.old }
    ensures few { result < MOST_SEATS }
{
    let ended = dispatcher
        .count_claims(seat)
        .saturating_sub(2 * u64::from(dispatcher.tasks()));
    u64::from(dispatcher.seats()).saturating_sub(1 + ended)
}

/// Makes the task's piece and sends it, if there is memory for it and the port takes it.
fn serve<W: Work, P: Port<Piece<W>>>(
    alloc: Global,
    inputs: &Inputs<W>,
    port: &mut P,
    task: u32,
) -> Option<()>
    requires { task < length inputs.now }
    ensures { P.Tells → MatchOption result (P.taken port.new ≡ P.taken port.old)
        (λ _. TookPieces inputs.now (P.taken port.old) (P.taken port.new) (task ∷ [])) }
{
    let input = Arc::try_clone(inputs.input(task)).ok()?;
    let piece = Piece::make(alloc, task, input).ok()?;
    port.send(piece).ok()
}
