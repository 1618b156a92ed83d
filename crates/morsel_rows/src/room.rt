//! Room that partitions take for rows, and give back.
ghost use Rattle.std.specs.Prelude.{◌≡◌, ℕ, IfOk};
ghost use Rattle.morsel_rows.specs.Partitions.{no_rows_in};
ghost use Rattle.morsel_rows.specs.TakenPartitions.{rows_of_taken, rows_taken_at};

use crate::OutOfMemory;
use crate::partition::Partition;
use std::alloc::Allocator;

/// Each partition that has taken memory, at its number.
pub(crate) type Taken<A> = Vec<Option<Box<Partition<A>, A>>, A>;

/// Room for fewer order rows isn't taken before there are some: a morsel has rows in few of many partitions.
const LEAST_ROOM: usize = 16;

/// How many bytes a partition takes for each order row that it has room for, and for the trades that go with it.
const BYTES_AN_ORDER: usize = 16;

/// By how much a thread's arena grows at once, in bytes: just below glibc's mmap threshold of 128 KiB, up to which it
/// also keeps what is freed at its end.
const GROWTH: usize = 122_880;

/// Has the C library grow the thread's arena once for several lists. By itself it does so for each list, by a system
/// call under a lock that all threads of the process share.
fn grow_arena<A: Allocator>(alloc: A) {
    let _ = Vec::<u8, A>::with_capacity(alloc, GROWTH);
}

/// The partitions that take memory at once: if there is to be room for many order rows in each, all, and otherwise
/// none.
pub(crate) fn with_rooms<A: Allocator + Copy>(
    alloc: A,
    parts: u32,
    orders: usize,
) -> Result<Taken<A>, OutOfMemory>
    ensures { IfOk result (λ taken. (number : ℕ) → rows_taken_at taken.items number ≡ no_rows_in) }
{
    if orders < LEAST_ROOM {
        return Ok(Vec::new(alloc));
    }
    let mut partitions = without_room(alloc, parts)?;
    reserve_all(alloc, partitions.as_mut_slice(), orders)?;
    Ok(partitions)
}

/// All partitions, before any takes room. What each has beside its lists, and a row looks at, lies in a few pages then.
#[tactic(auto, using(crate::proofs::TakenRows::room_more))]
fn without_room<A: Allocator + Copy>(alloc: A, parts: u32) -> Result<Taken<A>, OutOfMemory>
    ensures { IfOk result (λ taken. (number : ℕ) → rows_taken_at taken.items number ≡ no_rows_in) }
{
    let mut partitions = Vec::with_capacity(alloc, parts as usize)?;
    for _ in 0..parts {
        partitions.push(Some(Box::new(alloc, Partition::new(alloc))?))?;
    }
    Ok(partitions)
}

/// Takes room for `orders` order rows in each partition.
fn reserve_all<A: Allocator + Copy>(
    alloc: A,
    partitions: &mut [Option<Box<Partition<A>, A>>],
    orders: usize,
) -> Result<(), OutOfMemory>
    ensures { (number : ℕ) → rows_taken_at partitions.new number ≡ rows_taken_at partitions.old number }
{
    let mut room = 0;
    for taken in partitions.iter_mut() {
        reserve(alloc, taken, orders, &mut room)?;
    }
    Ok(())
}

/// Takes room for `orders` order rows in a partition, if it is there. `room` is about how many bytes are left of those
/// by which the arena last grew.
fn reserve<A: Allocator + Copy>(
    alloc: A,
    taken: &mut Option<Box<Partition<A>, A>>,
    orders: usize,
    room: &mut usize,
) -> Result<(), OutOfMemory>
    ensures { rows_of_taken taken.new ≡ rows_of_taken taken.old }
{
    let Some(partition) = taken else {
        return Ok(());
    };
    grow_for(alloc, orders, room);
    partition.reserve(orders)
}

/// Has the arena grow if it may have no room for a partition's lists.
fn grow_for<A: Allocator>(alloc: A, orders: usize, room: &mut usize) {
    let bytes = orders.saturating_mul(BYTES_AN_ORDER);
    if *room < bytes {
        grow_arena(alloc);
        *room = GROWTH;
    }
    *room = room.saturating_sub(bytes);
}

/// How many order rows a partition has at most if its lists are copied: nearly twice as many as of a block of a usual
/// day, so that little memory is taken for all copies of a scan.
const MOST_COPIED: usize = 4_096;

/// Gives memory back that the partitions take for further rows, and all that those without rows take. What a list
/// gives back where it lies is too little for others, and would never be filled. So lists are copied into memory for
/// just their rows, and what they were in is freed at once when all are copied, for the lists of the next scan.
pub(crate) fn shrink_all<A: Allocator + Copy>(
    alloc: A,
    partitions: &mut [Option<Box<Partition<A>, A>>],
)
    ensures { (number : ℕ) → rows_taken_at partitions.new number ≡ rows_taken_at partitions.old number }
{
    let mut copied = Vec::new(alloc);
    let mut room = 0;
    for taken in partitions.iter_mut() {
        shrink(alloc, taken, &mut copied, &mut room);
    }
}

/// Gives memory back that a partition takes for further rows, and all if it has no rows. If there is memory for a copy,
/// it is added to those that are copied. With more trades than orders its lists have grown out of their rooms, and are
/// never copied.
fn shrink<A: Allocator + Copy>(
    alloc: A,
    taken: &mut Option<Box<Partition<A>, A>>,
    copied: &mut Vec<Box<Partition<A>, A>, A>,
    room: &mut usize,
)
    ensures { rows_of_taken taken.new ≡ rows_of_taken taken.old }
{
    let Some(mut partition) = taken.take() else {
        return;
    };
    if partition.is_empty() {
        return;
    }
    let orders = partition.orders().len();
    if orders <= MOST_COPIED && partition.trades() <= orders {
        if let Ok(copy) = copy(alloc, &partition, room) {
            *taken = Some(copy);
            let _ = copied.push(partition);
            return;
        }
    }
    partition.shrink_to_fit();
    *taken = Some(partition);
}

/// The same partition, in memory for just its rows.
fn copy<A: Allocator + Copy>(
    alloc: A,
    partition: &Partition<A>,
    room: &mut usize,
) -> Result<Box<Partition<A>, A>, OutOfMemory>
    ensures { IfOk result (λ copy. copy.value ≡ partition.now) }
{
    grow_for(alloc, partition.orders().len(), room);
    Ok(Box::new(alloc, partition.copied(alloc)?)?)
}
