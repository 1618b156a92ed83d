//! Claims and marks of a dispatcher: on one thread and on four, by turns, and while memory is refused.
ghost use Rattle.std.specs.Prelude.{◌≡◌, ◌*◌, ◌%◌, ◌<◌, ◌≤◌, length, All, Contains};
ghost use Rattle.base.specs.declared.limits.TheConstants.{MOST_SEATS, MOST_TASKS};
ghost use Rattle.dispatcher.specs.Seats.{tasks_of, seats_of, claims, claim_of, IsSameSeat, IsSeatOf, IsUnused, MayClaim};

use dispatcher::{Claim, Dispatcher, OutOfMemory, Seat, SettleRefused, Tally};
use linked_list_allocator::LocalHeap;
use std::alloc::{Allocator, Global};
use std::process::Abort;
use std::sync::atomic::{AtomicU64, Ordering};
use std::test::Fail;
use std::thread;
use std::thread::Threads;
use tests_support::{are_all, counts};

/// Marks a task that the seat was given by this claim, if that is wanted.
fn mark_if<A: Allocator>(
    dispatcher: &Dispatcher<A>,
    seat: &mut Seat,
    claim: Claim,
    task: u32,
    marks: bool,
)
    requires own { IsSeatOf dispatcher.now seat.old }
    requires claimed { Contains (claims seat.old) (claim_of claim) }
    requires more { claim_of claim < 2 * tasks_of dispatcher.now }
    requires task { task ≡ claim_of claim % tasks_of dispatcher.now }
    ensures seat { IsSameSeat seat.old seat.new }
    ensures claims { claims seat.new ≡ claims seat.old }
{
    if marks {
        dispatcher.mark(seat, task);
    }
}

/// How often each claim was made, and how often each task was given.
#[derive(Drop)]
struct Noted {
    claims: Vec<AtomicU64>,
    tasks: Vec<AtomicU64>,
}

/// Counts one more of this number.
fn count(counts: &[AtomicU64], number: u64) {
    if let Some(count) = counts.get(number as usize) {
        count.fetch_add(1, Ordering::SeqCst);
    }
}

impl Noted {
    fn of(alloc: Global, tasks: u32, seats: u32) -> Result<Self, OutOfMemory>
        requires { (tasks ≤ MOST_TASKS) × (seats ≤ MOST_SEATS) }
    {
        Ok(Noted {
            claims: counts(alloc, 2 * tasks + seats)?,
            tasks: counts(alloc, tasks)?,
        })
    }

    fn note(&self, claim: Claim) {
        match claim {
            Claim::Task { claim, task } => {
                count(&self.claims, claim);
                count(&self.tasks, u64::from(task));
            }
            Claim::NoMore { claim } => count(&self.claims, claim),
        }
    }

    /// Whether each claim was made once, and each task given twice.
    fn is_each(&self) -> bool {
        are_all(&self.claims, 1) && are_all(&self.tasks, 2)
    }
}

/// A seat claims until no task is left, notes its claims, and marks what it was given if that is wanted.
fn work(dispatcher: &Dispatcher, seat: &mut Seat, marks: bool, noted: &Noted)
    requires own { IsSeatOf dispatcher.now seat.old }
    requires unused { IsUnused seat.old }
    ensures { IsSameSeat seat.old seat.new }
{
    loop {
        let claim = dispatcher.claim(seat);
        noted.note(claim);
        let Claim::Task { claim: _, task } = claim else {
            return;
        };
        mark_if(dispatcher, seat, claim, task, marks);
    }
}

/// Each seat does its work, on this many threads.
fn work_all<R: Threads + Sync>(
    rt: &R,
    dispatcher: &Dispatcher,
    seats: &mut [Seat],
    threads: usize,
    marks: bool,
    noted: &Noted,
)
    requires threads { 0 < threads }
    requires own { All (IsSeatOf dispatcher.now) seats.old }
    requires unused { All IsUnused seats.old }
    ensures count { length seats.new ≡ length seats.old }
    ensures own { All (IsSeatOf dispatcher.now) seats.new }
{
    thread::for_each_mut(
        rt,
        seats,
        threads,
        &|_, seat| work(dispatcher, seat, marks, noted),
    );
}

/// Whether all seats together, on this many threads, make each claim once and are given each task twice, of which the
/// tally has the claims, and all marks or none.
fn are_shared<R: Threads + Sync>(
    rt: &R,
    alloc: Global,
    tasks: u32,
    seats: u32,
    threads: usize,
    marks: bool,
) -> Result<bool, OutOfMemory>
    requires tasks { (0 < tasks) × (tasks ≤ MOST_TASKS) }
    requires seats { (0 < seats) × (seats ≤ MOST_SEATS) }
    requires threads { 0 < threads }
{
    let noted = Noted::of(alloc, tasks, seats)?;
    let (dispatcher, mut all) = Dispatcher::new(alloc, tasks, seats)?;
    work_all(rt, &dispatcher, all.as_mut_slice(), threads, marks, &noted);
    let Ok(
        Tally {
            claims,
            marks: marked,
        },
    ) = dispatcher.settle(all)
    else {
        return Ok(false);
    };
    let wanted = if marks { tasks } else { 0 };
    let is_marked = marked.count() == wanted as usize && marked.holds(tasks - 1) == marks;
    Ok(noted.is_each() && claims == u64::from(2 * tasks + seats) && is_marked)
}

#[test]
fn one_task_is_given_twice(rt: HostRuntime) -> Result<(), Fail> {
    assert!(rt; are_shared(&rt, rt.alloc(), 1, 1, 1, false)?);
    Ok(())
}

#[test]
fn most_tasks_and_seats_are_served(rt: HostRuntime) -> Result<(), Fail> {
    assert!(rt; are_shared(&rt, rt.alloc(), 65_536, 256, 1, true)?);
    Ok(())
}

#[test]
fn four_threads_share_the_claims(rt: HostRuntime) -> Result<(), Fail> {
    assert!(rt; are_shared(&rt, rt.alloc(), 65_536, 4, 4, true)?);
    Ok(())
}

/// A claim that gives a task, which is then marked if that is wanted.
#[tactic(auto, using(std::proofs::lemmas::Grind::elements))]
fn given<A: Allocator, R: Abort>(
    rt: &R,
    dispatcher: &Dispatcher<A>,
    seat: &mut Seat,
    claim: u64,
    task: u32,
    marks: bool,
)
    requires own { IsSeatOf dispatcher.now seat.old }
    requires more { MayClaim (tasks_of dispatcher.now) seat.old }
    ensures seat { IsSameSeat seat.old seat.new }
    ensures more { MayClaim (tasks_of dispatcher.now) seat.new }
{
    let next = dispatcher.claim(seat);
    let Claim::Task {
        claim: number,
        task: own,
    } = next
    else {
        panic!(rt; "no task is left")
    };
    assert!(rt; number == claim && own == task);
    mark_if(dispatcher, seat, next, own, marks);
}

/// Three tasks are given, and two of them marked.
fn first_giving<A: Allocator, R: Abort>(
    rt: &R,
    dispatcher: &Dispatcher<A>,
    a: &mut Seat,
    b: &mut Seat,
)
    requires own { IsSeatOf dispatcher.now a.old × IsSeatOf dispatcher.now b.old }
    requires more { MayClaim (tasks_of dispatcher.now) a.old
        × MayClaim (tasks_of dispatcher.now) b.old }
    ensures seats { IsSameSeat a.old a.new × IsSameSeat b.old b.new }
    ensures more { MayClaim (tasks_of dispatcher.now) a.new
        × MayClaim (tasks_of dispatcher.now) b.new }
{
    given(rt, dispatcher, a, 0, 0, true);
    given(rt, dispatcher, b, 1, 1, false);
    given(rt, dispatcher, a, 2, 2, true);
}

/// They are given again.
fn second_giving<A: Allocator, R: Abort>(
    rt: &R,
    dispatcher: &Dispatcher<A>,
    a: &mut Seat,
    b: &mut Seat,
)
    requires own { IsSeatOf dispatcher.now a.old × IsSeatOf dispatcher.now b.old }
    requires more { MayClaim (tasks_of dispatcher.now) a.old
        × MayClaim (tasks_of dispatcher.now) b.old }
    ensures seats { IsSameSeat a.old a.new × IsSameSeat b.old b.new }
    ensures more { MayClaim (tasks_of dispatcher.now) a.new
        × MayClaim (tasks_of dispatcher.now) b.new }
{
    given(rt, dispatcher, b, 3, 0, false);
    given(rt, dispatcher, a, 4, 1, false);
    given(rt, dispatcher, b, 5, 2, false);
}

/// A claim that gives no task, after which task 0 is seen marked, and task 1 not.
fn done<A: Allocator, R: Abort>(rt: &R, dispatcher: &Dispatcher<A>, seat: &mut Seat, claim: u64)
    requires size { tasks_of dispatcher.now ≡ 3 }
    requires own { IsSeatOf dispatcher.now seat.old }
    requires more { MayClaim (tasks_of dispatcher.now) seat.old }
    ensures { IsSameSeat seat.old seat.new }
{
    let last = dispatcher.claim(seat);
    let looks = (dispatcher.is_marked(seat, 0), dispatcher.is_marked(seat, 1));
    assert!(rt; last == Claim::NoMore { claim } && looks == (true, false));
}

fn turns<A: Allocator, R: Abort>(rt: &R, dispatcher: &Dispatcher<A>, a: &mut Seat, b: &mut Seat)
    requires size { tasks_of dispatcher.now ≡ 3 }
    requires own { IsSeatOf dispatcher.now a.old × IsSeatOf dispatcher.now b.old }
    requires unused { IsUnused a.old × IsUnused b.old }
    ensures { IsSameSeat a.old a.new × IsSameSeat b.old b.new }
{
    first_giving(rt, dispatcher, a, b);
    second_giving(rt, dispatcher, a, b);
    done(rt, dispatcher, a, 6);
    done(rt, dispatcher, b, 7);
}

fn by_turns<A: Allocator, R: Abort>(rt: &R, dispatcher: &Dispatcher<A>, seats: &mut Vec<Seat, A>)
    requires size { tasks_of dispatcher.now ≡ 3 }
    requires count { length seats.old.items ≡ 2 }
    requires own { All (IsSeatOf dispatcher.now) seats.old.items }
    requires unused { All IsUnused seats.old.items }
    ensures count { length seats.new.items ≡ 2 }
    ensures own { All (IsSeatOf dispatcher.now) seats.new.items }
{
    let (a, others) = seats.as_mut_slice().split_first_mut().unwrap();
    let (b, _) = others.split_first_mut().unwrap();
    turns(rt, dispatcher, a, b);
}

/// Whether the dispatcher ends with the tally of the turns.
fn has_tally_of_turns<A: Allocator + Clone>(dispatcher: Dispatcher<A>, seats: Vec<Seat, A>) -> bool
    requires own { All (IsSeatOf dispatcher) seats.items }
    requires all { length seats.items ≡ seats_of dispatcher }
{
    match dispatcher.settle(seats) {
        Ok(Tally { claims, marks }) => {
            let marked = (
                marks.holds(0),
                marks.holds(1),
                marks.holds(2),
                marks.holds(3),
            );
            claims == 8 && marked == (true, false, true, false)
        }
        Err(_) => false,
    }
}

#[test]
fn two_seats_take_turns(rt: HostRuntime) -> Result<(), Fail> {
    let (dispatcher, mut seats) = Dispatcher::new(rt.alloc(), 3, 2)?;
    by_turns(&rt, &dispatcher, &mut seats);
    assert!(rt; has_tally_of_turns(dispatcher, seats));
    Ok(())
}

/// Whether turns on this heap have their tally, for which memory is refused at first.
fn is_settled_at_last<R: Abort>(rt: &R, heap: &LocalHeap) -> Result<bool, OutOfMemory> {
    let (dispatcher, mut seats) = Dispatcher::new(heap, 3, 2)?;
    by_turns(rt, &dispatcher, &mut seats);
    let rest = Vec::<u8, &LocalHeap>::with_capacity(heap, heap.free())?;
    let Err(SettleRefused { dispatcher, seats }) = dispatcher.settle(seats) else {
        return Ok(false);
    };
    drop(rest);
    Ok(has_tally_of_turns(dispatcher, seats))
}

/// A dispatcher allocates two, two, one and one blocks of 16 bytes: on smaller heaps each of the four allocations is
/// the refused one in turn.
#[test]
fn each_allocation_can_be_refused(rt: HostRuntime) -> Result<(), Fail> {
    for blocks in 1..6 {
        let heap = LocalHeap::new(rt.alloc(), 16 * blocks)?;
        assert!(rt; Dispatcher::new(&heap, 3, 2).is_err());
    }
    let heap = LocalHeap::new(rt.alloc(), 96)?;
    assert!(rt; is_settled_at_last(&rt, &heap)?);
    Ok(())
}
