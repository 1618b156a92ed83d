//! Calls in heaps of more and more bytes, which are refused at first, and done once there is room; and room for rows
//! that is taken at once.
use crate::rows::{pass_told, push_each};
use itch_messages::{Executed, Header, Message, Replace};
use linked_list_allocator::LocalHeap;
use morsel_rows::{MorselRows, OrderList};
use std::alloc::{AllocError, Allocator, Global};
use std::test::Fail;

/// What came of a call.
#[derive(Drop)]
pub(crate) enum Came {
    /// It was refused, and what it was called on is as it was.
    Refused,
    /// It did what it is for.
    Done,
    /// It left something else.
    Wrong,
}

impl Came {
    /// What came of a call that was done or refused, and left what it should then, or not.
    pub(crate) fn of(is_done: bool, is_right: bool) -> Came {
        if !is_right {
            Came::Wrong
        } else if is_done {
            Came::Done
        } else {
            Came::Refused
        }
    }
}

/// What comes of a call in a heap of `bytes` bytes; None if there is no room for what it is called on.
fn came_within<F: Fn(Global, &LocalHeap) -> Result<Came, AllocError>>(
    alloc: Global,
    bytes: usize,
    call: &F,
) -> Result<Option<Came>, AllocError>
    requires { F.IsAlwaysCallable call.now }
{
    let heap = LocalHeap::new(alloc, bytes)?;
    Ok(call(alloc, &heap).ok())
}

/// How many bytes are enough for a call that is refused with fewer, by sixteens; 0 if it never is refused, or is wrong
/// with some.
pub(crate) fn enough_for<F: Fn(Global, &LocalHeap) -> Result<Came, AllocError>>(
    alloc: Global,
    call: F,
) -> Result<usize, AllocError>
    requires { F.IsAlwaysCallable call }
{
    let mut was_refused = false;
    for step in 1..400 {
        match came_within(alloc, 16 * step, &call)? {
            None => {}
            Some(Came::Refused) => was_refused = true,
            Some(Came::Done) if was_refused => return Ok(16 * step),
            Some(_) => return Ok(0),
        }
    }
    Ok(0)
}

/// The result of a test that passes if a call is refused with few bytes, and more bytes than `least` are enough for it.
pub(crate) fn needs_more<F: Fn(Global, &LocalHeap) -> Result<Came, AllocError>>(
    alloc: Global,
    least: usize,
    call: F,
) -> Result<(), Fail>
    requires { F.IsAlwaysCallable call }
{
    let enough = enough_for(alloc, call)?;
    if enough > least {
        Ok(())
    } else {
        Err(Fail::from(enough))
    }
}

/// A list with room for this many rows.
pub(crate) fn with_room(
    heap: &LocalHeap,
    rows: usize,
) -> Result<OrderList<&LocalHeap>, AllocError> {
    let mut list = OrderList::new(heap);
    list.reserve(rows)?;
    Ok(list)
}

/// What comes of a list with room for nine rows, which takes no more for them.
fn room_for_nine(_: Global, heap: &LocalHeap) -> Result<Came, AllocError> {
    let Ok(mut list) = with_room(heap, 9) else {
        return Ok(Came::of(false, heap.used() == 0));
    };
    let (used, length) = (heap.used(), list.len());
    let are_pushed = push_each(&mut list, 9, (0, 0), (1, 1)).is_ok();
    let is_taken_at_once = length == 0 && used >= 9 * 10 && heap.used() == used;
    Ok(Came::of(true, are_pushed && is_taken_at_once && list.len() == 9))
}

#[test]
fn a_list_takes_its_room_at_once_or_is_refused(rt: HostRuntime) -> Result<(), Fail> {
    needs_more(rt.alloc(), 9 * 10 - 1, room_for_nine)
}

/// How many orders a partition has, if it is there.
fn orders_in<A: Allocator>(rows: &MorselRows<A>, number: u32) -> Option<usize> {
    match rows.partition(number) {
        Some(partition) => Some(partition.orders().len()),
        None => None,
    }
}

/// Whether there are three partitions, none of which has an order.
fn are_three_without_orders<A: Allocator>(rows: &MorselRows<A>) -> bool {
    for number in 0..3 {
        if orders_in(rows, number) != Some(0) {
            return false;
        }
    }
    rows.partition(3).is_none()
}

/// What comes of three partitions of 24 rows.
fn room_of_three(_: Global, heap: &LocalHeap) -> Result<Came, AllocError> {
    Ok(match taken_and_left(heap, 24, 0) {
        Ok(three) => Came::of(true, three.are_empty && three.taken >= 3 * 24 * 10),
        Err(_) => Came::of(false, heap.used() == 0),
    })
}

#[test]
fn each_partition_takes_its_room_or_all_are_refused(rt: HostRuntime) -> Result<(), Fail> {
    needs_more(rt.alloc(), 3 * 24 * 10 - 1, room_of_three)
}

/// Whether room for eight rows more takes so much more memory, and as much is left of it when it is given back.
fn is_room_for_eight(alloc: Global) -> Result<bool, AllocError> {
    let few = three_in_heap(alloc, 16, 0)?;
    let more = three_in_heap(alloc, 24, 0)?;
    let room = more.taken.saturating_sub(few.taken);
    // (an execution more too, of 40 bytes)
    Ok(room >= 3 * (8 * 10 + 32) && room <= 3 * (9 * 10 + 48) && more.left == few.left)
}

/// Each partition takes the room for order rows that is asked for, and for trades, and gives back what no row took.
#[test]
fn room_is_taken_for_so_many_rows_and_given_back(rt: HostRuntime) -> Result<(), Fail> {
    pass_told(is_room_for_eight(rt.alloc()))
}

/// Whether three partitions with room for `count` rows take no memory.
fn take_none(alloc: Global, count: usize) -> Result<bool, AllocError> {
    let three = three_in_heap(alloc, count, 0)?;
    Ok(three.are_empty && three.taken == 0)
}

/// The same of partitions with no room, and with room for a few rows.
fn few_take_none(alloc: Global) -> Result<bool, AllocError> {
    Ok(take_none(alloc, 0)? && take_none(alloc, 15)?)
}

/// Where no room is asked for, or room for a few rows, partitions take no memory before they have rows.
#[test]
fn a_partition_without_rows_takes_no_memory(rt: HostRuntime) -> Result<(), Fail> {
    pass_told(few_take_none(rt.alloc()))
}

const HEADER: Header = Header {
    locate: 7,
    tracking: 0,
    time: 5,
};

/// An execution of an order of this reference.
fn executed(order_no: u64) -> Message {
    Message::Executed(Executed {
        header: HEADER,
        order_no,
        shares: 100,
        trade_no: 1,
    })
}

/// An order that is given this reference.
fn replaced(new_no: u64) -> Message {
    Message::Replace(Replace {
        header: HEADER,
        old_no: 1,
        new_no,
        shares: 100,
        price: 9,
    })
}

/// How many executions a partition has, if it is there.
fn executions_in<A: Allocator>(rows: &MorselRows<A>, number: u32) -> Option<usize> {
    match rows.partition(number) {
        Some(partition) => Some(partition.executions().len()),
        None => None,
    }
}

/// Adds executions of the reference 5, then gives back the room that no row takes.
fn add_and_shrink<A: Allocator + Copy>(
    rows: &mut MorselRows<A>,
    executions: u64,
) -> Result<(), AllocError> {
    for _ in 0..executions {
        rows.add_counted(None, 4, &executed(5))?;
    }
    rows.shrink_to_fit();
    Ok(())
}

/// What three partitions take.
#[derive(Clone, Copy)]
struct Three {
    /// Whether none of them has an order, and there are no more.
    are_empty: bool,
    /// How many bytes of the heap they take.
    taken: usize,
    /// How many once they gave back what the executions of the last didn't take.
    left: usize,
}

/// What three partitions with this room for rows take of the heap, which nothing else takes.
fn taken_and_left(heap: &LocalHeap, room: usize, executions: u64) -> Result<Three, AllocError> {
    let mut rows = MorselRows::new(heap, 3, room)?;
    let (are_empty, taken) = (are_three_without_orders(&rows), heap.used());
    let are_added = add_and_shrink(&mut rows, executions).is_ok();
    let left = if are_added { heap.used() } else { taken };
    Ok(Three {
        are_empty,
        taken,
        left,
    })
}

/// The same in a heap of their own.
fn three_in_heap(alloc: Global, room: usize, executions: u64) -> Result<Three, AllocError> {
    let heap = LocalHeap::new(alloc, 4_096)?;
    taken_and_left(&heap, room, executions)
}

/// Whether of three boxes and their rooms one box is left, with room for the execution.
fn is_one_left(alloc: Global) -> Result<bool, AllocError> {
    let three = three_in_heap(alloc, 24, 1)?;
    Ok(three.left < three.taken / 2)
}

/// A partition that got no rows gives all its memory back.
#[test]
fn partitions_without_rows_keep_no_memory(rt: HostRuntime) -> Result<(), Fail> {
    pass_told(is_one_left(rt.alloc()))
}

/// Whether the third partition alone keeps an execution when room is given back, and the first can still get one.
fn are_kept<A: Allocator + Copy>(rows: &mut MorselRows<A>) -> Result<bool, AllocError> {
    add_and_shrink(rows, 1)?;
    let is_kept = executions_in(rows, 0) == Some(0)
        && executions_in(rows, 1) == Some(0)
        && executions_in(rows, 2) == Some(1);
    rows.add_counted(None, 8, &executed(6))?;
    Ok(is_kept && executions_in(rows, 0) == Some(1))
}

/// The same of three partitions with room for rows.
fn are_kept_of_three(alloc: Global) -> Result<bool, AllocError> {
    are_kept(&mut MorselRows::new(alloc, 3, 24)?)
}

/// A partition that has rows keeps them, and one that has none can still get some.
#[test]
fn partitions_keep_their_rows_when_room_is_given_back(rt: HostRuntime) -> Result<(), Fail> {
    pass_told(are_kept_of_three(rt.alloc()))
}

/// Whether they keep an order too, and whether the room in the heap that no row took is free then.
fn are_kept_with_order(
    heap: &LocalHeap,
    rows: &mut MorselRows<&LocalHeap>,
) -> Result<bool, AllocError> {
    let taken = heap.used();
    rows.add_counted(None, 2, &replaced(5))?;
    Ok(are_kept(rows)? && orders_in(rows, 2) == Some(1) && heap.used() < taken)
}

/// The same in a heap. It is refused if there is no memory for three partitions and their room.
fn are_kept_in(heap: &LocalHeap) -> Result<bool, AllocError> {
    are_kept_with_order(heap, &mut MorselRows::new(heap, 3, 24)?)
}

/// The same in a heap of so many bytes; None if there is no memory for three partitions and their room.
fn are_kept_within(alloc: Global, bytes: usize) -> Result<Option<bool>, AllocError> {
    let heap = LocalHeap::new(alloc, bytes)?;
    Ok(are_kept_in(&heap).ok())
}

/// Whether they are in each heap of up to 255 times 16 bytes that isn't too small, as most aren't.
fn are_kept_in_each(alloc: Global) -> Result<bool, AllocError> {
    let mut least = 0;
    for step in 1..256 {
        match are_kept_within(alloc, 16 * step)? {
            None => {}
            Some(true) => least = if least == 0 { step } else { least },
            Some(false) => return Ok(false),
        }
    }
    Ok(least > 1 && least < 200)
}

/// In the smallest heaps there is no memory to copy rows to, so that lists give their room back where they lie.
#[test]
fn room_is_given_back_without_memory_for_copies(rt: HostRuntime) -> Result<(), Fail> {
    pass_told(are_kept_in_each(rt.alloc()))
}
