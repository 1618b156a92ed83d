//! A case: what the lines of a paragraph say, with the schedules of rehearsals.
use crate::values::{Values, values_of};
use executor::Event;
use std::alloc::Global;
use std::io;
use tests_support::{append_day, append_text, fields_of, not_written_so, number};

/// What the lines of a paragraph say.
#[derive(Drop)]
pub(crate) struct Case {
    /// The text of the query.
    pub(crate) query: Vec<u8>,
    /// The bytes of the day, if there is one.
    pub(crate) day: Option<Vec<u8>>,
    /// What is changed by turns.
    pub(crate) values: Option<Values>,
    /// Where morsels begin that a rehearsal is cut into, if it is said.
    pub(crate) ends: Option<Vec<u64>>,
    /// The events of the two pipelines of a rehearsal, if they are said.
    pub(crate) first: Option<Vec<Event>>,
    pub(crate) second: Option<Vec<Event>>,
    /// The ways in which it is answered.
    pub(crate) ways: Vec<String>,
    /// The words of a command line, if it is one.
    pub(crate) words: Option<Vec<String>>,
}

impl Case {
    /// The case of no line.
    pub(crate) fn new(alloc: Global) -> Case {
        Case {
            query: Vec::new(alloc),
            day: None,
            values: None,
            ends: None,
            first: None,
            second: None,
            ways: Vec::new(alloc),
            words: None,
        }
    }

    /// Takes in a line.
    pub(crate) fn read(&mut self, alloc: Global, line: &str) -> io::Result<()> {
        let (head, rest) = line.split_once(' ').unwrap_or((line, ""));
        match head {
            "" | "#" => Ok(()),
            "day" => append_day(alloc, self.day.get_or_insert(Vec::new(alloc)), rest),
            "query" => append_quoted(alloc, &mut self.query, rest),
            "words" => append_words(alloc, self.words.get_or_insert(Vec::new(alloc)), rest),
            "vary" => {
                self.values = Some(values_of(alloc, rest)?);
                Ok(())
            }
            "ends" => append_numbers(self.ends.get_or_insert(Vec::new(alloc)), rest),
            "first" => append_events(alloc, self.first.get_or_insert(Vec::new(alloc)), rest),
            "second" => append_events(alloc, self.second.get_or_insert(Vec::new(alloc)), rest),
            "plain" | "run" | "run_blocks" | "answer" | "answer_blocks" | "rehearse" => {
                append_word(alloc, &mut self.ways, line)
            }
            _ => Err(not_written_so()),
        }
    }
}

/// Appends texts in quotation marks, each as often as a number behind it says.
fn append_quoted(alloc: Global, out: &mut Vec<u8>, text: &str) -> io::Result<()> {
    let Some(text) = text.strip_prefix('"') else {
        return Err(not_written_so());
    };
    let mut piece = Vec::new(alloc);
    let mut is_quoted = true;
    for part in text.split('"') {
        if is_quoted {
            out.extend_from_slice(piece.as_slice())?;
            piece.clear();
            append_text(&mut piece, part)?;
        } else if let Some(times) = part.trim().strip_prefix('*') {
            for _ in 1..number::<u32>(times)? {
                out.extend_from_slice(piece.as_slice())?;
            }
        }
        is_quoted = !is_quoted;
    }
    Ok(out.extend_from_slice(piece.as_slice())?)
}

/// Appends the words of a text.
pub(crate) fn append_words(alloc: Global, words: &mut Vec<String>, text: &str) -> io::Result<()> {
    for word in text.split_whitespace() {
        append_word(alloc, words, word)?;
    }
    Ok(())
}

/// Appends one word, which may be any text.
pub(crate) fn append_word(alloc: Global, words: &mut Vec<String>, word: &str) -> io::Result<()> {
    Ok(words.push(String::from_str(alloc, word)?)?)
}

fn append_numbers(out: &mut Vec<u64>, text: &str) -> io::Result<()> {
    for word in text.split_whitespace() {
        out.push(number(word)?)?;
    }
    Ok(())
}

/// Appends the events of a text: `Arrive(0,3)` of a gatherer and a task, or `Arrive(0,0..63)` of several tasks in this
/// order, `Lose(3)` of a task, `Merge(0,1)` of two gatherers.
pub(crate) fn append_events(alloc: Global, events: &mut Vec<Event>, text: &str) -> io::Result<()> {
    for word in text.split_whitespace() {
        append_event(events, fields_of(alloc, word)?.as_slice())?;
    }
    Ok(())
}

/// Appends the events of a name and its fields.
fn append_event(events: &mut Vec<Event>, fields: &[&str]) -> io::Result<()> {
    match *fields {
        ["Arrive", gatherer, tasks] => append_arrivals(events, number(gatherer)?, tasks),
        ["Lose", task] => Ok(events.push(Event::Lose {
            task: number(task)?,
        })?),
        ["Merge", into, other] => {
            let (into, other) = (number(into)?, number(other)?);
            Ok(events.push(Event::Merge { into, other })?)
        }
        _ => Err(not_written_so()),
    }
}

/// Appends arrivals of the tasks from one to another, up or down.
fn append_arrivals(events: &mut Vec<Event>, gatherer: u32, tasks: &str) -> io::Result<()> {
    let (from, to) = range_of(tasks)?;
    for task in from..=to {
        events.push(Event::Arrive { gatherer, task })?;
    }
    if from > to {
        for task in (to..=from).rev() {
            events.push(Event::Arrive { gatherer, task })?;
        }
    }
    Ok(())
}

/// The two numbers of `0..63`; twice the one of `7`.
pub(crate) fn range_of(text: &str) -> io::Result<(u32, u32)> {
    let (first, last) = text.split_once("..").unwrap_or((text, text));
    Ok((number(first)?, number(last)?))
}

/// Each task arrives, the last one first, at one gatherer after the other.
pub(crate) fn falling(alloc: Global, tasks: u32, gatherers: u32) -> io::Result<Vec<Event>> {
    let mut events = Vec::new(alloc);
    for task in (0..tasks).rev() {
        let gatherer = task % gatherers.max(1);
        events.push(Event::Arrive { gatherer, task })?;
    }
    Ok(events)
}
