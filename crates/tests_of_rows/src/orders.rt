//! The table of orders, and which order rows are needed.
use crate::room::{Came, enough_for, needs_more};
use crate::rows::{forty_rows, order_rows, pass_if, pass_told};
use linked_list_allocator::LocalHeap;
use order_list::OrderFilter;
use order_table::{Built, Expected, Near, OrderTable, Repeated, greatest_prime, partition};
use std::alloc::{AllocError, Allocator, Global};
use std::test::Fail;

/// References and places, and the price of an execution there.
static PRICED: [(u64, u64, Option<u32>); 5] = [
    (1, 0, None),
    (1, 1, Some(4)),
    (1, 33, Some(4)),
    (1, 38, Some(4)),
    (2, 80, None),
];

/// Rows where a reference may be expected, and the references that they are thought to have: the price is the same.
static EXPECTED: [(usize, u64); 4] = [(0, 1), (1, 1), (2, 0), (usize::MAX, u64::MAX)];

/// Whether the first row of the reference 1 prices, wherever it is expected, and the second one repeats it.
fn is_built<A: Allocator + Clone>(built: &Built<A>) -> bool {
    for (order_no, place, want) in &PRICED {
        for (row, reference) in &EXPECTED {
            let near = Near {
                row: *row,
                reference: *reference,
            };
            let expected = Expected { list: 0, near };
            if built.table.price_before(*order_no, *place, expected) != *want {
                return false;
            }
        }
    }
    let repeated = Repeated {
        place: 38,
        order_no: 1,
    };
    built.repeated == Some(repeated)
}

/// What comes of making the table.
fn built(_: Global, heap: &LocalHeap) -> Result<Came, AllocError> {
    Ok(match OrderTable::build(heap, &order_rows()) {
        Ok(built) => Came::of(true, is_built(&built)),
        Err(_) => Came::Refused,
    })
}

#[test]
fn the_first_row_prices(rt: HostRuntime) -> Result<(), Fail> {
    needs_more(rt.alloc(), 16, built)
}

/// Whether a reference is in its partition by these numbers of them.
fn is_partition() -> bool {
    partition(130, 64) == 2 && partition(130, 7) == 4 && partition(130, 1) == 0
}

#[test]
fn references_have_partitions() -> Result<(), Fail> {
    let are_greatest = greatest_prime(1) == 1 && greatest_prime(2) == 2 && greatest_prime(64) == 61;
    pass_if(is_partition() && are_greatest)
}

/// Whether a table of forty rows by this factor finds room in the heap.
fn is_room(alloc: Global, heap: &LocalHeap, factor: u64) -> Result<bool, AllocError> {
    let rows = forty_rows(alloc, factor)?;
    Ok(OrderTable::build(heap, rows.as_slice()).is_ok())
}

/// What comes of rows that rise, and whether the same comes of others.
fn sorted(alloc: Global, heap: &LocalHeap) -> Result<Came, AllocError> {
    let is_done = is_room(alloc, heap, 1)?;
    let is_same = is_room(alloc, heap, 17)? == is_done && is_room(alloc, heap, 40)? == is_done;
    Ok(Came::of(is_done, is_same))
}

/// Whether the room that is enough for rows that rise is 24 bytes for each.
fn is_little(alloc: Global) -> Result<bool, AllocError> {
    let enough = enough_for(alloc, sorted)?;
    Ok(enough >= 40 * 24 && enough <= 42 * 24)
}

/// The room that is enough for rows that rise, of 24 bytes each, is enough for others, which are sorted where they are.
#[test]
fn rows_are_sorted_where_they_are(rt: HostRuntime) -> Result<(), Fail> {
    pass_told(is_little(rt.alloc()))
}

/// How references follow each other.
#[derive(Clone, Copy)]
enum Shape {
    Rising,
    FarApart,
    InNoOrder,
    Falling,
    OfOnePartition,
}

static SHAPES: [Shape; 5] = [
    Shape::Rising,
    Shape::FarApart,
    Shape::InNoOrder,
    Shape::Falling,
    Shape::OfOnePartition,
];

impl Shape {
    /// The reference of this number.
    fn reference(self, number: u64) -> u64 {
        match self {
            Shape::Rising => number,
            Shape::FarApart => number.wrapping_mul(1 << 40),
            Shape::InNoOrder => number.wrapping_mul(0xd6e8_feb8_6659_fd93),
            Shape::Falling => u64::MAX - number,
            Shape::OfOnePartition => number.reverse_bits(),
        }
    }
}

/// A filter with this room for orders and a tenth of it for executions, an execution of every tenth of a thousand
/// references, and an order of each.
fn filter_of(alloc: Global, room: usize, shape: Shape) -> Result<OrderFilter, AllocError> {
    let mut filter = OrderFilter::new(alloc, room, room / 10)?;
    for tens in 0..100u64 {
        filter.add_execution(shape.reference(tens * 10));
    }
    for number in 0..1_000u64 {
        filter.add_order(shape.reference(number));
    }
    Ok(filter)
}

/// How many of the thousand references are needed.
fn count_needed(filter: &OrderFilter, shape: Shape) -> usize {
    let mut count = 0usize;
    for number in 0..1_000u64 {
        if filter.needs(shape.reference(number)) {
            count = count.saturating_add(1);
        }
    }
    count
}

/// Whether each tenth reference is needed.
fn needs_executed(filter: &OrderFilter, shape: Shape) -> bool {
    for tens in 0..100u64 {
        if !filter.needs(shape.reference(tens * 10)) {
            return false;
        }
    }
    true
}

/// Whether a filter with this room needs each tenth reference, and no more than `most`.
fn needs_few(alloc: Global, shape: Shape, room: usize, most: usize) -> Result<bool, AllocError> {
    let filter = filter_of(alloc, room, shape)?;
    Ok(needs_executed(&filter, shape) && count_needed(&filter, shape) <= most)
}

/// The same of references of each shape, and of much, little and no room.
fn each_needs_few(alloc: Global) -> Result<bool, AllocError> {
    for shape in &SHAPES {
        let is_right = needs_few(alloc, *shape, 1_000, 225)?
            && needs_few(alloc, *shape, 100, 1_000)?
            && needs_few(alloc, *shape, 0, 1_000)?;
        if !is_right {
            return Ok(false);
        }
    }
    Ok(true)
}

/// Each executed reference is, and few others are; all may be if the filter has too little room.
#[test]
fn executed_references_are_needed(rt: HostRuntime) -> Result<(), Fail> {
    pass_told(each_needs_few(rt.alloc()))
}
