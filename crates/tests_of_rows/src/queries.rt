//! Calls on queries that take memory.
use crate::room::{Came, needs_more};
use crate::rows::named_row;
use canonical_query::write;
use linked_list_allocator::LocalHeap;
use query::{Locates, Names, OutOfMemory, Query, QueryFault, Symbols, parse, selection};
use std::alloc::{Allocator, Global};
use std::test::Fail;

/// What comes of reading a query with three symbols.
fn parsed(_: Global, heap: &LocalHeap) -> Result<Came, OutOfMemory> {
    Ok(match parse(heap, "sales where symbol in MSFT,A,MSFT") {
        Ok(query) => Came::of(true, count_symbols(query.symbols) == 3),
        Err(fault) => Came::of(false, fault == QueryFault::OutOfMemory),
    })
}

/// How many symbols are listed.
fn count_symbols<A: Allocator>(symbols: Option<Symbols<A>>) -> usize {
    match symbols {
        Some(symbols) => symbols.into_vec().len(),
        None => 0,
    }
}

#[test]
fn parse_succeeds_once_there_is_memory(rt: HostRuntime) -> Result<(), Fail> {
    needs_more(rt.alloc(), 0, parsed)
}

/// What comes of writing a query behind a word.
fn written_behind(heap: &LocalHeap, query: &Query, text: &str) -> Result<Came, OutOfMemory> {
    let mut out = Vec::from_slice(heap, b"before ")?;
    let is_written = write(&mut out, query).is_ok();
    let want = if is_written { text } else { "" };
    Ok(Came::of(is_written, stands_behind(out.as_slice(), want)))
}

/// Whether a text stands behind the word.
fn stands_behind(out: &[u8], text: &str) -> bool {
    match out.strip_prefix(b"before ".as_slice()) {
        Some(behind) => behind == text.as_bytes(),
        None => false,
    }
}

/// The same of the query that the text means.
fn written(alloc: Global, heap: &LocalHeap, text: &str) -> Result<Came, OutOfMemory> {
    match parse(alloc, text) {
        Ok(query) => written_behind(heap, &query, text),
        Err(_) => Ok(Came::Wrong),
    }
}

/// Queries, each with other pieces.
static QUERIES: [&str; 4] = [
    "sales",
    "bars 86400 s as of 09:30:59",
    "bars 60 s as of 09:30:59 where kind in P",
    "sales where symbol in MSFT,A and time from 09:30:00 until 24:00:00 and kind in E,C,Q",
];

/// The result of a test that passes if each of them is written, or what stood is left.
fn each_written(alloc: Global) -> Result<(), Fail> {
    for text in &QUERIES {
        needs_more(alloc, 0, |alloc, heap| written(alloc, heap, *text))?;
    }
    Ok(())
}

#[test]
fn a_refused_write_leaves_what_stood(rt: HostRuntime) -> Result<(), Fail> {
    each_written(rt.alloc())
}

/// The names of two locates: 7 is MSFT, 9 is A.
fn names(alloc: Global) -> Result<Names, OutOfMemory> {
    Names::build(
        alloc,
        &[named_row(0, 7, b"MSFT    "), named_row(41, 9, b"A       ")],
    )
}

/// Whether these are the locates of the symbols `A`, `#10`, `#8` and `#1` to `#6`.
fn are_selected<A: Allocator>(locates: &Locates<A>) -> bool {
    match locates {
        Locates::Listed(list) => list.items() == [1, 2, 3, 4, 5, 6, 8, 9, 10].as_slice(),
        Locates::All => false,
    }
}

/// What comes of a selection of symbols out of order, one of them twice, and one that no locate is named.
fn selected_by(heap: &LocalHeap, query: &Query, names: &Names) -> Came {
    match selection(heap, query, names) {
        Ok(selected) => Came::of(true, are_selected(&selected.locates)),
        Err(_) => Came::Refused,
    }
}

/// The same of the query's text.
fn selected(alloc: Global, heap: &LocalHeap) -> Result<Came, OutOfMemory> {
    let names = names(alloc)?;
    match parse(
        alloc,
        "sales where symbol in A,NONE,#10,#8,#1,#2,#3,#4,#5,#6,A",
    ) {
        Ok(query) => Ok(selected_by(heap, &query, &names)),
        Err(_) => Ok(Came::Wrong),
    }
}

// To sort the eleven symbols takes 176 bytes, and the locates take more beside them.
#[test]
fn selection_succeeds_once_there_is_memory(rt: HostRuntime) -> Result<(), Fail> {
    needs_more(rt.alloc(), 176, selected)
}
