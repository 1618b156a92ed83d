//! Texts in parts, which threads make while earlier parts are written, or the caller alone: whole whatever parts there
//! is no memory for, and taken as far as a sink has room.
use sinks::{Collected, CountedSink, Parts, WriteFailed, put_alone, put_parts};
use std::alloc::Global;
use std::io::{self, Write};
use std::sync::Wait;
use std::thread::Threads;
use time_and_sales::OutOfMemory;

/// What stands before the parts of each text.
const HEADER: &[u8] = b"header\n";

/// How many threads make the parts; None of the caller alone, and of 0 the caller makes them too.
pub(crate) const CREWS: [Option<u32>; 6] = [None, Some(0), Some(1), Some(2), Some(3), Some(5)];

/// A writer that takes at most `step` bytes a call and `room` in all, of this text alone. It takes no memory.
#[derive(Drop)]
struct Expecting<'a> {
    rest: &'a [u8],
    step: usize,
    room: usize,
}

impl<'a> Write for Expecting<'a> {
    fn write(&mut self, buf: &[u8]) -> io::Result<usize> {
        let count = buf.len().min(self.step).min(self.room).min(self.rest.len());
        let (next, rest) = self.rest.split_at(count);
        if next != &buf[..count] {
            return Err(io::Error::from(io::ErrorKind::InvalidData));
        }
        self.rest = rest;
        self.room -= count;
        Ok(count)
    }

    fn flush(&mut self) -> io::Result<()> {
        Ok(())
    }
}

/// What comes of writing the header and the parts to a writer.
fn put_to<P: Parts>(
    rt: &(impl Threads + Wait + Sync),
    alloc: Global,
    parts: &P,
    crew: Option<u32>,
    writer: &mut Expecting,
) -> Result<(), WriteFailed> {
    let mut sink = CountedSink::of(writer);
    match crew {
        Some(threads) => put_parts(rt, alloc, HEADER, parts, threads, &mut sink),
        None => put_alone(alloc, HEADER, parts, &mut sink),
    }
}

/// Whether a writer with room for `room` bytes takes as many first bytes of this text, or all of it.
pub(crate) fn is_taken_up_to<P: Parts>(
    rt: &(impl Threads + Wait + Sync),
    alloc: Global,
    parts: &P,
    text: &[u8],
    crew: Option<u32>,
    room: usize,
) -> bool {
    let mut writer = Expecting {
        rest: text,
        step: 7,
        room,
    };
    let told = put_to(rt, alloc, parts, crew, &mut writer);
    let want = if room < text.len() {
        Err(WriteFailed {
            written: room as u64,
        })
    } else {
        Ok(())
    };
    told == want && writer.rest.len() == text.len().saturating_sub(room)
}

/// The same with room for each number of bytes that is too few.
fn is_taken_up_to_each<P: Parts>(
    rt: &(impl Threads + Wait + Sync),
    alloc: Global,
    parts: &P,
    text: &[u8],
    crew: Option<u32>,
) -> bool {
    for room in 0..text.len() {
        if !is_taken_up_to(rt, alloc, parts, text, crew, room) {
            return false;
        }
    }
    true
}

/// The same of each crew.
fn is_taken_from_each<P: Parts>(
    rt: &(impl Threads + Wait + Sync),
    alloc: Global,
    parts: &P,
    text: &[u8],
) -> bool {
    for crew in &CREWS {
        if !is_taken_up_to_each(rt, alloc, parts, text, *crew) {
            return false;
        }
    }
    true
}

/// Whether each crew writes the whole text. Nothing here takes memory but what the parts are made in.
fn is_whole_from_each<P: Parts>(
    rt: &(impl Threads + Wait + Sync),
    alloc: Global,
    parts: &P,
    text: &[u8],
) -> bool {
    for crew in &CREWS {
        if !is_taken_up_to(rt, alloc, parts, text, *crew, text.len()) {
            return false;
        }
    }
    true
}

/// Whether a sink that keeps what it takes has the whole text.
fn is_collected<P: Parts>(alloc: Global, parts: &P, text: &[u8]) -> bool {
    let mut sink = Collected::new(alloc);
    let is_written = put_alone(alloc, HEADER, parts, &mut sink).is_ok();
    is_written && sink.into_bytes().as_slice() == text
}

/// Whether each part is written without memory as it is made.
fn are_written_as_made<P: Parts>(alloc: Global, parts: &P) -> Result<bool, OutOfMemory> {
    for part in 0..parts.count() {
        let made = parts.make(alloc, part)?;
        let mut sink = Collected::new(alloc);
        let told = parts.put(part, &mut sink);
        if told != Ok(made.len() as u64) || sink.into_bytes() != made {
            return Ok(false);
        }
    }
    Ok(true)
}

/// What parts are tried for.
#[derive(Clone, Copy)]
pub(crate) enum Trial {
    /// That the text is whole from each crew, and in a sink that keeps it.
    Whole,
    /// That each part is written without memory as it is made.
    Slow,
    /// That a sink without room for the text takes what it has room for.
    Short,
    /// That the text is whole from each crew, in no memory but for the parts.
    Free,
}

/// Whether the parts of a text behind the header pass a trial.
pub(crate) fn pass<P: Parts>(
    rt: &(impl Threads + Wait + Sync),
    alloc: Global,
    parts: &P,
    text: &[u8],
    trial: Trial,
) -> Result<bool, OutOfMemory> {
    Ok(match trial {
        Trial::Whole => {
            is_whole_from_each(rt, alloc, parts, text) && is_collected(alloc, parts, text)
        }
        Trial::Slow => are_written_as_made(alloc, parts)?,
        Trial::Short => is_taken_from_each(rt, alloc, parts, text),
        Trial::Free => is_whole_from_each(rt, alloc, parts, text),
    })
}
