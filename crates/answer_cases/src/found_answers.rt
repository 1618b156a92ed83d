//! The answers of a case.
use crate::case::Case;
use crate::meanings::append_meaning;
use crate::performed::append_performed;
use crate::values::Values;
use crate::ways::answer_by;
use std::alloc::Global;
use std::io;
use std::sync::Wait;
use std::thread::Threads;
use tests_support::not_written_so;

/// Appends the answers of a case, by the usual ways if it names none. A case without a day asks what the query means.
pub(crate) fn append_answers<R: Threads + Wait + Sync>(
    rt: &R,
    alloc: Global,
    case: &Case,
    usual: &[String],
    out: &mut Vec<u8>,
) -> io::Result<()> {
    let Ok(query) = str::from_utf8(case.query.as_slice()) else {
        return Err(not_written_so());
    };
    let Some(day) = &case.day else {
        return append_meaning(alloc, out, query);
    };
    if let Some(words) = &case.words {
        return append_performed(rt, alloc, words.as_slice(), query, day.as_slice(), out);
    }
    let ways = if case.ways.is_empty() {
        usual
    } else {
        case.ways.as_slice()
    };
    let asked = Asked { case, query, ways };
    match case.values {
        None => {
            let text = asked.text_of(rt, alloc, day.as_slice(), None)?;
            Ok(out.extend_from_slice(text.as_slice())?)
        }
        Some(values) => asked.append_each(rt, alloc, day.as_slice(), values, out),
    }
}

/// A case, its query, and the ways in which it is answered.
#[derive(Clone, Copy)]
struct Asked<'a> {
    case: &'a Case,
    query: &'a str,
    ways: &'a [String],
}

impl Asked<'_> {
    /// The answer by the first way, and behind the name of each other way that has another one, this.
    fn text_of<R: Threads + Wait + Sync>(
        &self,
        rt: &R,
        alloc: Global,
        day: &[u8],
        morsel: Option<u64>,
    ) -> io::Result<Vec<u8>> {
        let mut text = Vec::new(alloc);
        let mut usual = 0;
        for way in self.ways {
            self.append_way(rt, alloc, day, morsel, way.as_str(), usual, &mut text)?;
            if usual == 0 {
                usual = text.len();
            }
        }
        Ok(text)
    }

    /// Appends the answer by a way, if it isn't the usual one, which has so many bytes.
    fn append_way<R: Threads + Wait + Sync>(
        &self,
        rt: &R,
        alloc: Global,
        day: &[u8],
        morsel: Option<u64>,
        way: &str,
        usual: usize,
        text: &mut Vec<u8>,
    ) -> io::Result<()> {
        let mut other = Vec::new(alloc);
        answer_by(
            rt, alloc, self.case, self.query, day, way, morsel, &mut other,
        )?;
        append_if_other(text, usual, way, other.as_slice())
    }

    /// Appends what comes of each of the values. Values that follow one another and have one answer are told together.
    fn append_each<R: Threads + Wait + Sync>(
        &self,
        rt: &R,
        alloc: Global,
        day: &[u8],
        values: Values,
        out: &mut Vec<u8>,
    ) -> io::Result<()> {
        let mut last = Vec::new(alloc);
        let (mut from, mut to) = (values.first, values.first);
        for value in (values.first..=values.last).step_by(values.step.max(1) as usize) {
            let changed = values.varied.day(alloc, day, value)?;
            let text = self.text_of(rt, alloc, changed.as_slice(), values.varied.morsel(value))?;
            if value == values.first || text.as_slice() != last.as_slice() {
                append_values(alloc, out, from, to, last.as_slice())?;
                from = value;
                last = text;
            }
            to = value;
        }
        append_values(alloc, out, from, to, last.as_slice())
    }
}

/// Appends an answer if it isn't the usual one, which has so many bytes, behind the way that it is by; or the first.
fn append_if_other(text: &mut Vec<u8>, usual: usize, way: &str, other: &[u8]) -> io::Result<()> {
    if usual > 0 && text.get(..usual) == Some(other) {
        return Ok(());
    }
    if usual > 0 {
        text.extend_from_slice(b"but by ")?;
        text.extend_from_slice(way.as_bytes())?;
        text.push(b'\n')?;
    }
    Ok(text.extend_from_slice(other)?)
}

/// Appends an answer and the values that have it, if there is one.
fn append_values(
    alloc: Global,
    out: &mut Vec<u8>,
    from: u32,
    to: u32,
    text: &[u8],
) -> io::Result<()> {
    if text.is_empty() {
        return Ok(());
    }
    let head = if from == to {
        format!(in alloc; "-- {from}\n")?
    } else {
        format!(in alloc; "-- {from}..{to}\n")?
    };
    out.extend_from_slice(head.as_bytes())?;
    Ok(out.extend_from_slice(text)?)
}
