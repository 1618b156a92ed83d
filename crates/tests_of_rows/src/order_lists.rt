//! Lists of order rows: lean and wide ones, the memory that they take, and those that are searched where they lie.
use crate::room::{Came, needs_more, with_room};
use crate::rows::{list_of, order, pass_all, pass_told, push_each};
use linked_list_allocator::LocalHeap;
use morsel_rows::{OrderList, OutOfMemory};
use order_table::OrderRow;
use std::alloc::{Allocator, Global};
use std::test::Fail;

/// Farther than a place or a reference may be from that of the first row.
const FAR: u64 = 1 << 33;

/// References and places of lists: of lean rows, and of some that aren't near the first row.
static LISTS: [&[(u64, u64)]; 8] = [
    &[(3, 100), (4, 140), (2, 180)],
    &[(3, 100), (FAR, 140), (4, 180)],
    &[(3, 100), (FAR, 140), (4, 100 + FAR), (5, 180), (6, 220)],
    &[(3, 100), (4, 100 + FAR), (5, 140), (6, 180 + FAR)],
    &[(u64::MAX, u64::MAX), (0, 0), (u64::MAX, 1), (5, u64::MAX)],
    &[
        (0, u64::MAX),
        (u64::MAX, u64::MAX),
        (1, u64::MAX - 1),
        (7, 0),
    ],
    &[
        (1 << 23, 7),
        (0, 8),
        ((1 << 24) - 1, 9),
        (1 << 24, 10),
        (5, 11),
    ],
    &[
        (FAR, 7),
        (FAR - (1 << 23), 8),
        (FAR - (1 << 23) - 1, 9),
        (FAR, 10),
    ],
];

/// Pushes rows until one is refused, and says how many were taken.
fn pushed<A: Allocator + Copy>(list: &mut OrderList<A>, rows: &[(u64, u64)]) -> usize {
    let mut count = 0usize;
    for (order_no, place) in rows {
        if list.push(order(*order_no, *place)).is_err() {
            break;
        }
        count = count.saturating_add(1);
    }
    count
}

/// Whether rows are the first ones of these references, each at the place beside it.
fn are_first(out: &[OrderRow], rows: &[(u64, u64)]) -> bool {
    let mut left = rows.iter();
    for row in out {
        match left.next() {
            Some((order_no, place)) if *row == order(*order_no, *place) => {}
            _ => return false,
        }
    }
    true
}

/// Whether a list has the first `count` of these rows.
fn has<A: Allocator>(
    alloc: Global,
    list: &OrderList<A>,
    count: usize,
    rows: &[(u64, u64)],
) -> bool {
    let mut out = Vec::new(alloc);
    list.append_to(&mut out).is_ok()
        && list.len() == count
        && out.len() == count
        && are_first(out.as_slice(), rows)
}

/// What comes of pushing all of these rows.
fn all_pushed(alloc: Global, heap: &LocalHeap, rows: &[(u64, u64)]) -> Result<Came, OutOfMemory> {
    let mut list = OrderList::new(heap);
    let count = pushed(&mut list, rows);
    let is_right = has(alloc, &list, count, rows);
    Ok(Came::of(count == rows.len(), is_right))
}

/// The result of a test that passes if what comes of pushing the rows of each list is right.
fn each_pushed(alloc: Global) -> Result<(), Fail> {
    for rows in &LISTS {
        needs_more(alloc, 0, |alloc, heap| all_pushed(alloc, heap, rows))?;
    }
    Ok(())
}

/// Whether each row is refused as long as there is no memory, and the list then has those before it.
#[test]
fn a_row_that_is_refused_leaves_the_list(rt: HostRuntime) -> Result<(), Fail> {
    each_pushed(rt.alloc())
}

/// Pushes nine rows: one of the first reference, and eight of the other.
fn push_nine(list: &mut OrderList<&LocalHeap>, first: u64, other: u64) -> Result<(), OutOfMemory> {
    list.push(order(first, 100))?;
    push_each(list, 8, (other, 140), (0, 1))
}

/// How many bytes of the heap these take, for which there was room.
fn used_by_nine(heap: &LocalHeap, first: u64, other: u64) -> usize {
    let Ok(mut list) = with_room(heap, 9) else {
        return 0;
    };
    let are_pushed = push_nine(&mut list, first, other).is_ok();
    if are_pushed { heap.used() } else { 0 }
}

/// Whether each of nine such rows takes this many bytes.
fn takes(alloc: Global, first: u64, other: u64, bytes: u8) -> Result<bool, OutOfMemory> {
    let heap = LocalHeap::new(alloc, 4_096)?;
    let used = used_by_nine(&heap, first, other);
    let bytes = usize::from(bytes);
    Ok(used >= 9 * bytes && used < 10 * bytes)
}

/// The first references of lists, and the lowest that is near each.
static NEAR: [(u64, u64); 6] = [
    (0, 0),
    (5, 0),
    (1 << 23, 0),
    ((1 << 23) + 1, 1),
    (FAR, FAR - (1 << 23)),
    (u64::MAX, u64::MAX - ((1 << 24) - 1)),
];

/// Whether rows of the lowest and the greatest near reference take 10 bytes, and those beside them 20.
fn take_ten_near(alloc: Global, first: u64, lowest: u64) -> Result<bool, OutOfMemory> {
    Ok(
        takes(alloc, first, first, 10)?
            && takes(alloc, first, lowest, 10)?
            && takes(alloc, first, lowest.wrapping_add((1 << 24) - 1), 10)?
            && takes(alloc, first, lowest.wrapping_sub(1), 20)?
            && takes(alloc, first, lowest.wrapping_add(1 << 24), 20)?,
    )
}

/// Whether they do near each of the first references of the table.
fn take_ten_near_each(alloc: Global) -> Result<bool, OutOfMemory> {
    for (first, lowest) in &NEAR {
        if !take_ten_near(alloc, *first, *lowest)? {
            return Ok(false);
        }
    }
    Ok(true)
}

/// A row takes 10 bytes if it is near the first one, and otherwise 20.
#[test]
fn rows_near_the_first_take_ten_bytes(rt: HostRuntime) -> Result<(), Fail> {
    pass_told(take_ten_near_each(rt.alloc()))
}

/// Whether a list with room for a hundred rows takes no more of the heap for lean ones, then none of it for these
/// beside what wide ones take, and no more for all rows.
fn are_turned_wide(heap: &LocalHeap, lean: u64) -> bool {
    let Ok(mut list) = with_room(heap, 100) else {
        return false;
    };
    let room = heap.used();
    let is_lean = push_each(&mut list, lean, (0, 100), (1, 0)).is_ok() && heap.used() == room;
    let is_wide = push_each(&mut list, 1, (FAR, 100), (0, 0)).is_ok();
    let with_wide = heap.used();
    let rest = 99u64.saturating_sub(lean);
    let is_whole = push_each(&mut list, rest, (2 * FAR, 100), (FAR, 0)).is_ok();
    let is_kept = heap.used() == with_wide && list.len() == 100;
    let is_room = room >= 100 * 10 && room < 102 * 10 && with_wide < 102 * 20;
    is_room && is_lean && is_wide && is_whole && is_kept
}

/// The same in a heap of its own.
fn are_wide(alloc: Global, lean: u64) -> Result<bool, OutOfMemory> {
    let heap = LocalHeap::new(alloc, 4_096)?;
    Ok(are_turned_wide(&heap, lean))
}

/// The same behind one lean row, two and fifty.
fn are_all_wide(alloc: Global) -> Result<bool, OutOfMemory> {
    Ok(are_wide(alloc, 1)? && are_wide(alloc, 2)? && are_wide(alloc, 50)?)
}

/// A list that turns out wide has no room for lean rows beside that for wide ones.
#[test]
fn room_is_given_back_where_rows_turn_out_wide(rt: HostRuntime) -> Result<(), Fail> {
    pass_told(are_all_wide(rt.alloc()))
}

/// A place that 32 bits don't hold.
const BEHIND: u64 = 5 << 32;

/// Whether three rows take no more memory of the heap than there was room for, in a list that rises.
fn are_lean(heap: &LocalHeap) -> bool {
    let Ok(mut list) = with_room(heap, 3) else {
        return false;
    };
    let used = heap.used();
    let are_pushed = push_each(&mut list, 3, (0, BEHIND), (1, 40)).is_ok();
    are_pushed && heap.used() == used && list.rising().is_some()
}

/// The same in a heap of its own.
fn far_are_lean(alloc: Global) -> Result<bool, OutOfMemory> {
    let heap = LocalHeap::new(alloc, 4_096)?;
    Ok(are_lean(&heap))
}

/// Behind the first 4 GiB of a file a row takes no more memory than before, and is searched where it lies.
#[test]
fn rows_far_behind_are_lean(rt: HostRuntime) -> Result<(), Fail> {
    pass_told(far_are_lean(rt.alloc()))
}

/// The least and the greatest reference of a list that is searched where it lies.
fn bounds_of(alloc: Global, rows: &[(u64, u64)]) -> Result<Option<(u64, u64)>, OutOfMemory> {
    let list = list_of(alloc, rows)?;
    Ok(match list.rising() {
        Some(rows) => Some((rows.least(), rows.greatest())),
        None => None,
    })
}

/// The greatest reference that is near `FAR`.
const TOP: u64 = FAR + (1 << 23) - 1;

/// References and places of lists, and the least and the greatest reference of those that rise and whose rows aren't
/// too far apart.
static BOUNDS: [(&[(u64, u64)], Option<(u64, u64)>); 12] = [
    (&[(7, 0)], Some((7, 7))),
    (&[(3, 100), (4, 140), (8, 180), (9, 220)], Some((3, 9))),
    (&[(FAR, 7), (FAR + 1, 8), (TOP, 9)], Some((FAR, TOP))),
    (&[], None),
    (&[(4, 0), (3, 40)], None),
    (&[(3, 0), (3, 40)], None),
    (&[(1, 0), (2, 40), (2, 80), (3, 120)], None),
    (&[(1, 0), (5, 40), (4, 80)], None),
    (&[(1, 0), (2, FAR)], None),
    (&[(1, FAR), (2, 0)], None),
    (&[(FAR, 7), (TOP + 1, 8)], None),
    (&[(FAR, 7), (FAR - (1 << 23) - 1, 8)], None),
];

/// How many of these lists, up to the first that hasn't, have their bounds.
fn right_bounds(alloc: Global) -> Result<usize, OutOfMemory> {
    let mut right = 0usize;
    for (rows, bounds) in &BOUNDS {
        if bounds_of(alloc, rows)? != *bounds {
            break;
        }
        right = right.saturating_add(1);
    }
    Ok(right)
}

#[test]
fn a_list_that_rises_is_searched_where_it_lies(rt: HostRuntime) -> Result<(), Fail> {
    pass_all(right_bounds(rt.alloc()), 12)
}

/// Where a list that is searched where it lies has a reference first.
fn place_of(list: &OrderList, order_no: u64) -> Option<u64> {
    let rising = list.rising()?;
    let near = rising.look(order_no, rising.expect(order_no));
    match rising.first(order_no, near) {
        Some(row) => Some(row.place),
        None => None,
    }
}

/// References, and the place at which a list of `FAR`, the next one and `TOP` has them.
static SEARCHED: [(u64, Option<u64>); 8] = [
    (FAR, Some(7)),
    (FAR + 1, Some(8)),
    (TOP, Some(9)),
    (0, None),
    (FAR - 1, None),
    (FAR + 2, None),
    (TOP + 1, None),
    (u64::MAX, None),
];

/// Whether a list has the references at these places.
fn finds_each(list: &OrderList) -> bool {
    for (order_no, place) in &SEARCHED {
        if place_of(list, *order_no) != *place {
            return false;
        }
    }
    true
}

/// The same of a list that is made for it.
fn finds_near_and_far(alloc: Global) -> Result<bool, OutOfMemory> {
    let list = list_of(alloc, &[(FAR, 7), (FAR + 1, 8), (TOP, 9)])?;
    Ok(finds_each(&list))
}

#[test]
fn a_search_knows_references_near_and_far(rt: HostRuntime) -> Result<(), Fail> {
    pass_told(finds_near_and_far(rt.alloc()))
}
