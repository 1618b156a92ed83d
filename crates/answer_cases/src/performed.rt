//! What comes of a command line.
use crate::case::append_word;
use crate::held_days::start_over;
use command_line::{CountedSink, command, explain};
use std::alloc::Global;
use std::io;
use std::sync::Wait;
use std::thread::Threads;

/// Appends the status of a command line, and what it writes to the two streams, over a day on standard input; and if
/// anything else comes over one in a file, this, too.
pub(crate) fn append_performed<R: Threads + Wait + Sync>(
    rt: &R,
    alloc: Global,
    given: &[String],
    query: &str,
    day: &[u8],
    out: &mut Vec<u8>,
) -> io::Result<()> {
    let words = words_of(alloc, given, query, "-")?;
    let of_input = performed(rt, alloc, words.as_slice(), day)?;
    out.extend_from_slice(of_input.as_slice())?;
    let words = words_of(alloc, given, query, "day")?;
    let of_file = performed(rt, alloc, words.as_slice(), day)?;
    if of_file.as_slice() != of_input.as_slice() {
        out.extend_from_slice("but of a file\n".as_bytes())?;
        out.extend_from_slice(of_file.as_slice())?;
    }
    Ok(())
}

/// The words of a command line, in which the query stands for `QUERY`, and the name of a file for `-`.
fn words_of(alloc: Global, given: &[String], query: &str, file: &str) -> io::Result<Vec<String>> {
    let mut words = Vec::new(alloc);
    append_word(alloc, &mut words, "itch_bars")?;
    for word in given {
        let word = match word.as_str() {
            "QUERY" => query,
            "-" => file,
            other => other,
        };
        append_word(alloc, &mut words, word)?;
    }
    Ok(words)
}

/// The status of a command line, and what it writes.
fn performed<R: Threads + Wait + Sync>(
    rt: &R,
    alloc: Global,
    words: &[String],
    day: &[u8],
) -> io::Result<Vec<u8>> {
    let (mut text, mut line) = (Vec::new(alloc), Vec::new(alloc));
    let mut out = CountedSink::of(&mut text);
    let mut errors = CountedSink::of(&mut line);
    let status = match command(alloc, words) {
        Err(fault) => explain(&fault, &mut out, &mut errors),
        Ok(job) => start_over(rt, alloc, day, &job, &mut out, &mut errors),
    };
    let mut told = format!(in alloc; "status {status}\n")?.into_bytes();
    append_lines(&mut told, text.as_slice())?;
    append_lines(&mut told, line.as_slice())?;
    Ok(told)
}

/// Appends a text; a line of it that is empty is written as `|`, since an empty line ends a case.
fn append_lines(out: &mut Vec<u8>, text: &[u8]) -> io::Result<()> {
    let mut is_new = true;
    for byte in text {
        if is_new && *byte == b'\n' {
            out.push(b'|')?;
        }
        out.push(*byte)?;
        is_new = *byte == b'\n';
    }
    Ok(())
}
