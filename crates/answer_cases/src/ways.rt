//! Each way in which a case is answered.
use crate::case::{Case, append_words, falling};
use crate::meanings::append_fault;
use command_line::command;
use cutting::{CutFault, cut, cut_at};
use executor::{
    Answer, Counted, CountedSink, Cut, DayFault, DayFile, Division, FreeGate, LONGEST_FILE, Query,
    Rehearsal, RunFault, Settings, answer, answer_blocks, parse, plain, rehearse, run, run_blocks,
};
use std::alloc::Global;
use std::io;
use std::sync::{Arc, Wait};
use std::thread::Threads;
use tests_support::{in_memory, not_written_so};

/// Appends the answer, or the line of the fault, in a way: the name of a call, and the options of the program's words;
/// with this size of morsels in place of its own, if there is one.
pub(crate) fn answer_by<R: Threads + Wait + Sync>(
    rt: &R,
    alloc: Global,
    case: &Case,
    query: &str,
    day: &[u8],
    way: &str,
    morsel: Option<u64>,
    out: &mut Vec<u8>,
) -> io::Result<()> {
    let (name, options) = way.split_once(' ').unwrap_or((way, ""));
    let settings = settings_of(alloc, options, morsel)?;
    match name {
        "run" => by_run(rt, alloc, day, query, settings, out),
        "run_blocks" => by_run_blocks(rt, alloc, day, query, settings, out),
        _ => match parse(alloc, query) {
            Err(fault) => append_fault(alloc, out, &RunFault::Query(fault)),
            Ok(query) => by_parsed(rt, alloc, case, &query, day, name, settings, out),
        },
    }
}

/// The settings that options of the program's words give.
fn settings_of(alloc: Global, options: &str, morsel: Option<u64>) -> io::Result<Settings> {
    let mut words = Vec::new(alloc);
    append_words(alloc, &mut words, "itch_bars - sales")?;
    append_words(alloc, &mut words, options)?;
    if let Some(morsel) = morsel {
        let word = format!(in alloc; "--morsel={morsel}")?;
        append_words(alloc, &mut words, word.as_str())?;
    }
    match command(alloc, words.as_slice()) {
        Ok(job) => Ok(job.settings),
        Err(_) => Err(not_written_so()),
    }
}

/// Appends what comes of a query that was read apart.
fn by_parsed<R: Threads + Wait + Sync>(
    rt: &R,
    alloc: Global,
    case: &Case,
    query: &Query,
    day: &[u8],
    name: &str,
    settings: Settings,
    out: &mut Vec<u8>,
) -> io::Result<()> {
    if name == "answer_blocks" {
        return by_blocks(rt, alloc, day, query, settings, out);
    }
    let bytes = Vec::from_slice(alloc, day)?;
    if bytes.len() as u64 > LONGEST_FILE {
        return Err(not_written_so());
    }
    let file = DayFile::of_bytes(bytes);
    if name == "plain" {
        return append_answer(alloc, out, &plain(alloc, &file, query)?);
    }
    by_cut(rt, alloc, case, query, &file, name, settings, out)
}

/// Appends what comes of it if the day is cut first.
fn by_cut<R: Threads + Wait + Sync>(
    rt: &R,
    alloc: Global,
    case: &Case,
    query: &Query,
    file: &DayFile,
    name: &str,
    settings: Settings,
    out: &mut Vec<u8>,
) -> io::Result<()> {
    let made = match &case.ends {
        Some(ends) => cut_at(alloc, file, ends.as_slice()),
        None => cut(alloc, file, settings.morsel),
    };
    match made {
        Err(fault) => append_fault(alloc, out, &run_fault_of(fault)),
        Ok(cut) if name == "rehearse" => by_rehearsal(alloc, case, &cut, query, settings, out),
        Ok(cut) => {
            let found = answer(
                rt,
                alloc,
                &cut,
                query,
                settings.parts,
                settings.crew,
                &FreeGate,
            )?;
            append_answer(alloc, out, &found)
        }
    }
}

/// A cut's fault, as a run reports it.
fn run_fault_of(fault: CutFault) -> RunFault {
    match fault {
        CutFault::Truncated { place } => RunFault::Day(DayFault::Truncated { place }),
        CutFault::TooManyMorsels => RunFault::TooManyMorsels,
        CutFault::NotABoundary { .. } | CutFault::OutOfMemory => RunFault::OutOfMemory,
    }
}

fn append_answer(alloc: Global, out: &mut Vec<u8>, answer: &Answer) -> io::Result<()> {
    match answer {
        Answer::Printed(text) => Ok(out.extend_from_slice(text.bytes())?),
        Answer::Faulty(fault) => append_fault(alloc, out, &RunFault::Day(*fault)),
    }
}

/// Appends what a rehearsal gives by the events of the case, or by ones in which each task arrives once.
fn by_rehearsal(
    alloc: Global,
    case: &Case,
    cut: &Cut,
    query: &Query,
    settings: Settings,
    out: &mut Vec<u8>,
) -> io::Result<()> {
    let gatherers = settings.crew.gatherers;
    let parts = settings.parts;
    let all_morsels = falling(alloc, cut.count(), gatherers)?;
    let all_parts = falling(alloc, parts, gatherers)?;
    let first = case.first.as_ref().unwrap_or(&all_morsels).as_slice();
    let second = case.second.as_ref().unwrap_or(&all_parts).as_slice();
    match rehearse(alloc, cut, query, parts, gatherers, first, second)? {
        Rehearsal::Finished(answer) => append_answer(alloc, out, &answer),
        Rehearsal::Missing { pipeline, task } => {
            let line = format!(in alloc; "missing: pipeline {pipeline}, task {task}\n")?;
            Ok(out.extend_from_slice(line.as_bytes())?)
        }
    }
}

/// Appends what a whole run writes, or its fault.
fn by_run<R: Threads + Wait + Sync>(
    rt: &R,
    alloc: Global,
    day: &[u8],
    query: &str,
    settings: Settings,
    out: &mut Vec<u8>,
) -> io::Result<()> {
    let mut source = Counted::of(day);
    let mut sink = CountedSink::of(&mut *out);
    match run(rt, alloc, &mut source, query, settings, &mut sink) {
        Ok(()) => Ok(()),
        Err(fault) => append_fault(alloc, out, &fault),
    }
}

/// Appends what a whole run by blocks writes, if no byte is expected, or its fault.
fn by_run_blocks<R: Threads + Wait + Sync>(
    rt: &R,
    alloc: Global,
    day: &[u8],
    query: &str,
    settings: Settings,
    out: &mut Vec<u8>,
) -> io::Result<()> {
    let mut sink = CountedSink::of(&mut *out);
    match run_blocks(rt, alloc, in_memory(day), 0, query, settings, &mut sink) {
        Ok(()) => Ok(()),
        Err(fault) => append_fault(alloc, out, &fault),
    }
}

/// Appends what threads answer over blocks of a morsel's length.
fn by_blocks<R: Threads + Wait + Sync>(
    rt: &R,
    alloc: Global,
    day: &[u8],
    query: &Query,
    settings: Settings,
    out: &mut Vec<u8>,
) -> io::Result<()> {
    let source = Arc::new(alloc, in_memory(day))?;
    let bytes = settings.morsel.max(1);
    let blocks = (day.len() as u64 / bytes).clamp(1, 65_536) as u32;
    let division = Division { bytes, blocks };
    match answer_blocks(rt, alloc, &source, division, query, settings, &FreeGate) {
        Ok(answer) => append_answer(alloc, out, &answer),
        Err(fault) => append_fault(alloc, out, &fault),
    }
}
