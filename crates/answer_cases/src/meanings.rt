//! What a query means.
use canonical_query::write;
use executor::{Query, RunFault, What, parse};
use query::Kinds;
use std::alloc::Global;
use std::io;

/// A canonical text of more bytes is written only if it isn't the text that was read.
const LONG_TEXT: usize = 1_000;

/// Appends the canonical text of what a text means, and its numbers, or its fault. If the canonical text means
/// something else, that follows.
pub(crate) fn append_meaning(alloc: Global, out: &mut Vec<u8>, text: &str) -> io::Result<()> {
    let written = append_read(alloc, out, text)?;
    let Ok(again) = str::from_utf8(written.as_slice()) else {
        return Ok(());
    };
    let mut line = Vec::new(alloc);
    append_read(alloc, &mut line, again)?;
    if !written.is_empty() && !out.ends_with(line.as_slice()) {
        out.extend_from_slice(line.as_slice())?;
    }
    Ok(())
}

/// Appends the line of a text, and gives its canonical text, which is none of a fault.
fn append_read(alloc: Global, out: &mut Vec<u8>, text: &str) -> io::Result<Vec<u8>> {
    let mut written = Vec::new(alloc);
    match parse(alloc, text) {
        Ok(query) => append_query(alloc, out, &query, text, &mut written)?,
        Err(fault) => append_fault(alloc, out, &RunFault::Query(fault))?,
    }
    Ok(written)
}

/// Appends the line of a query that was read from a text, and writes its canonical text.
fn append_query(
    alloc: Global,
    out: &mut Vec<u8>,
    query: &Query,
    text: &str,
    written: &mut Vec<u8>,
) -> io::Result<()> {
    write(written, query)?;
    if written.len() > LONG_TEXT && written.as_slice() == text.as_bytes() {
        out.extend_from_slice(b"the very text")?;
    } else {
        out.extend_from_slice(written.as_slice())?;
    }
    append_numbers(alloc, out, query)
}

/// Appends the line of a fault.
pub(crate) fn append_fault(alloc: Global, out: &mut Vec<u8>, fault: &RunFault) -> io::Result<()> {
    let line = format!(in alloc; "fault: {fault}\n")?;
    Ok(out.extend_from_slice(line.as_bytes())?)
}

/// Appends what a query means, if it says so, in numbers.
fn append_numbers(alloc: Global, line: &mut Vec<u8>, query: &Query) -> io::Result<()> {
    if let What::Bars { width } = query.what {
        append_number(alloc, line, "width", width.into())?;
    }
    if let Some(moment) = query.as_of {
        append_number(alloc, line, "moment", moment.into())?;
    }
    if let Some(symbols) = &query.symbols {
        append_number(alloc, line, "symbols", symbols.items().len() as u64)?;
    }
    if let Some(span) = query.span {
        append_number(alloc, line, "since", span.since.into())?;
        append_number(alloc, line, "until", span.until.into())?;
    }
    append_kinds(line, query.kinds)
}

/// Appends a number and its name.
fn append_number(alloc: Global, line: &mut Vec<u8>, name: &str, number: u64) -> io::Result<()> {
    let text = format!(in alloc; "; {name} {number}")?;
    Ok(line.extend_from_slice(text.as_bytes())?)
}

/// Appends the letters of the kinds.
fn append_kinds(line: &mut Vec<u8>, kinds: Kinds) -> io::Result<()> {
    line.extend_from_slice(b"; kinds ")?;
    for (is_asked, letter) in &[
        (kinds.e, b'E'),
        (kinds.c, b'C'),
        (kinds.p, b'P'),
        (kinds.q, b'Q'),
    ] {
        if *is_asked {
            line.push(*letter)?;
        }
    }
    Ok(line.push(b'\n')?)
}
