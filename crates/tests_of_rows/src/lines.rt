//! Names of locates, by the last directory row; prices, times and lines of sales: their texts, whole or not at all.
use crate::lines_of_bars::names;
use crate::room::{Came, needs_more};
use crate::rows::{named_row, pass_told};
use linked_list_allocator::LocalHeap;
use probe::{Kind, Sale};
use std::alloc::{Allocator, Global};
use std::test::Fail;
use time_and_sales::{
    DirectoryRow, Names, OutOfMemory, append_price, append_seconds, append_time, write_header,
    write_sale,
};

const VALUES: &str = "429496.729509:30:01.00000000578:11:14";

/// Appends a price, a time and a time's second to what stands there.
fn append_values(out: &mut Vec<u8, &LocalHeap>) -> Result<(), OutOfMemory> {
    append_price(out, 4_294_967_295)?;
    append_time(out, 34_201_000_000_005)?;
    append_seconds(out, 281_474_976_710_655)
}

/// Whether these are all values, or those before one of them.
fn are_whole(out: &[u8], are_all: bool) -> bool {
    let is_end = match out.len() {
        37 => are_all,
        0 | 11 | 29 => !are_all,
        _ => false,
    };
    is_end && VALUES.as_bytes().starts_with(out)
}

/// What comes of appending these.
fn values(_: Global, heap: &LocalHeap) -> Result<Came, OutOfMemory> {
    let mut out = Vec::new(heap);
    let are_appended = append_values(&mut out).is_ok();
    Ok(Came::of(are_appended, are_whole(&out, are_appended)))
}

#[test]
fn prices_and_times_are_written_whole_or_not_at_all(rt: HostRuntime) -> Result<(), Fail> {
    needs_more(rt.alloc(), 0, values)
}

const LINES: &str = "time,symbol,kind,price,shares,number
09:30:01.000000005,MSFT,E,410.5000,40,9
09:30:01.000000005,MSFT,C,410.4000,30,13
09:30:01.000000005,MSFT,Q,410.5000,5000000000,17
78:11:14.976710655,#8,P,1.0000,1,61
";

static SALES: [(u64, u16, Kind, u32, u64, u64); 4] = [
    (34_201_000_000_005, 7, Kind::E, 4_105_000, 40, 9),
    (34_201_000_000_005, 7, Kind::C, 4_104_000, 30, 13),
    (34_201_000_000_005, 7, Kind::Q, 4_105_000, 5_000_000_000, 17),
    (281_474_976_710_655, 8, Kind::P, 10_000, 1, 61),
];

/// Appends the line of a sale, if its time can be written.
fn append_sale(
    out: &mut Vec<u8, &LocalHeap>,
    names: &Names,
    sale: &Sale,
) -> Result<(), OutOfMemory> {
    if sale.time >= 1 << 48 {
        return Ok(());
    }
    write_sale(out, sale, &names.name(sale.locate))
}

fn write_lines(out: &mut Vec<u8, &LocalHeap>, names: &Names) -> Result<(), OutOfMemory> {
    write_header(out)?;
    for (time, locate, kind, price, shares, trade_no) in &SALES {
        let sale = Sale {
            place: 79,
            time: *time,
            locate: *locate,
            kind: *kind,
            price: *price,
            shares: *shares,
            trade_no: *trade_no,
        };
        append_sale(out, names, &sale)?;
    }
    Ok(())
}

/// Whether these are whole lines, and all if they should be.
fn are_whole_lines(out: &[u8], are_all: bool) -> bool {
    let is_end = match out.last() {
        Some(last) => *last == b'\n',
        None => true,
    };
    is_end && LINES.as_bytes().starts_with(out) && are_all == (out.len() == LINES.len())
}

/// What comes of writing the lines.
fn lines(alloc: Global, heap: &LocalHeap) -> Result<Came, OutOfMemory> {
    let names = names(alloc)?;
    let mut out = Vec::new(heap);
    let are_written = write_lines(&mut out, &names).is_ok();
    Ok(Came::of(are_written, are_whole_lines(&out, are_written)))
}

#[test]
fn lines_of_sales_are_written_whole_or_not_at_all(rt: HostRuntime) -> Result<(), Fail> {
    needs_more(rt.alloc(), 0, lines)
}

/// Whether these are the names of their locates.
fn are_named<A: Allocator + Clone>(names: &Names<A>, want: &[(u16, &str)]) -> bool {
    for (locate, name) in want {
        if names.name(*locate).items() != name.as_bytes() {
            return false;
        }
    }
    true
}

/// Whether these rows give their locates these names.
fn names_them(
    alloc: Global,
    rows: &[DirectoryRow],
    want: &[(u16, &str)],
) -> Result<bool, OutOfMemory> {
    Ok(are_named(&Names::build(alloc, rows)?, want))
}

#[test]
fn the_last_row_of_a_locate_names_it(rt: HostRuntime) -> Result<(), Fail> {
    let rows = [
        named_row(112, 7, b"AB CD   "),
        named_row(0, 7, b"MSFT    "),
        named_row(153, 9, b"        "),
        named_row(194, 10, b" A,\x7f\xff!~ "),
    ];
    let want = [(7, "AB?CD"), (8, "#8"), (9, ""), (10, "?A???!~")];
    pass_told(names_them(rt.alloc(), &rows, &want))
}

#[test]
fn a_locate_without_a_row_is_its_number(rt: HostRuntime) -> Result<(), Fail> {
    pass_told(names_them(rt.alloc(), &[], &[(7, "#7"), (65_535, "#65535")]))
}

/// The names by a row at 79, which names 7, and by those of thirty more locates.
fn later_names<A: Allocator + Clone>(room: A) -> Result<Names<A>, OutOfMemory> {
    let mut rows = [named_row(120, 7, b"ZVZZT   "); 31];
    rows[0] = named_row(79, 7, b"AB CD   ");
    let mut locate = 100u16;
    for number in 1..31 {
        rows[number].locate = locate;
        locate = locate.wrapping_add(1);
    }
    Names::build(room, &rows)
}

/// The names by an earlier row of 7.
fn earlier_names<A: Allocator + Clone>(room: A) -> Result<Names<A>, OutOfMemory> {
    Names::build(room, &[named_row(0, 7, b"MSFT    ")])
}

const EARLIER: [(u16, &str); 3] = [(7, "MSFT"), (8, "#8"), (129, "#129")];

const LATER: [(u16, &str); 3] = [(7, "AB?CD"), (8, "#8"), (129, "ZVZZT")];

/// What comes of earlier names that take in others.
fn united_with<A: Allocator + Clone>(room: A, others: &Names<A>) -> Result<Came, OutOfMemory> {
    let mut names = earlier_names(room)?;
    let is_united = names.unite(others).is_ok();
    let want = if is_united { LATER } else { EARLIER };
    Ok(Came::of(is_united, are_named(&names, &want)))
}

/// What comes of earlier names that take in later ones.
fn united(_: Global, heap: &LocalHeap) -> Result<Came, OutOfMemory> {
    let others = later_names(heap)?;
    united_with(heap, &others)
}

/// Whether later names that take in earlier ones stay.
fn stay(later: &mut Names, earlier: &Names) -> bool {
    later.unite(earlier).is_ok() && are_named(later, &LATER)
}

/// The same of names that are made for it.
fn later_stay(alloc: Global) -> Result<bool, OutOfMemory> {
    Ok(stay(&mut later_names(alloc)?, &earlier_names(alloc)?))
}

#[test]
fn names_take_in_others_or_stay(rt: HostRuntime) -> Result<(), Fail> {
    needs_more(rt.alloc(), 0, united)
}

#[test]
fn later_names_stay(rt: HostRuntime) -> Result<(), Fail> {
    pass_told(later_stay(rt.alloc()))
}
