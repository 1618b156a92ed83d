//! A program that answers queries over small days in many ways (`plain`, `rehearse`, `answer`, `run`, `answer_blocks`,
//! `run_blocks`), does what command lines ask for over files in memory (`start`), and says what queries mean. The head
//! of `stdin` says how a case is written, and which answers were written by hand and which are those of
//! `fuzz/slow_reader.rs`, a reader in plain Rust that shares no code with the product. It writes the text again with
//! the answers that it finds, and `stdout` is a copy of `stdin`: the first line that differs is wrong.
//!
//! No contract but that of `start_over`: the stored run compares. `fuzz/run stored` compares all but the command lines'
//! with the reader's.
#![tactic(auto)]

mod case;
mod found_answers;
mod held_days;
mod meanings;
mod performed;
mod values;
mod ways;

use case::{Case, append_word};
use found_answers::append_answers;
use std::alloc::Global;
use std::io::{self, BufRead, BufReader, Write};
use std::sync::Wait;
use std::thread::Threads;

/// Behind this line the answers of a case stand, up to an empty line.
const ANSWERS: &str = "----";

fn main(rt: HostRuntime) -> io::Result<()> {
    let mut out = rt.stdout();
    let mut copied = Copied::new(rt.alloc());
    for line in BufReader::new(rt.alloc(), rt.reader())?.lines(rt.alloc()) {
        copied.copy(&rt, rt.alloc(), line?.as_str(), &mut out)?;
    }
    copied.write(&mut out)
}

/// What was read and not written yet, the case at hand, and the ways of cases that name none.
#[derive(Drop)]
struct Copied {
    text: Vec<u8>,
    case: Case,
    usual: Vec<String>,
    is_answered: bool,
}

impl Copied {
    fn new(alloc: Global) -> Copied {
        Copied {
            text: Vec::new(alloc),
            case: Case::new(alloc),
            usual: Vec::new(alloc),
            is_answered: false,
        }
    }

    /// Takes in a line, and at the end of a case writes what was read.
    fn copy<R: Threads + Wait + Sync, W: Write>(
        &mut self,
        rt: &R,
        alloc: Global,
        line: &str,
        out: &mut W,
    ) -> io::Result<()> {
        self.take(rt, alloc, line)?;
        if line.is_empty() {
            self.write(out)
        } else {
            Ok(())
        }
    }

    /// Writes what was read and not written yet.
    fn write<W: Write>(&mut self, out: &mut W) -> io::Result<()> {
        out.write_all(self.text.as_slice())?;
        self.text.clear();
        out.flush()
    }

    /// Takes in a line.
    fn take<R: Threads + Wait + Sync>(
        &mut self,
        rt: &R,
        alloc: Global,
        line: &str,
    ) -> io::Result<()> {
        if line.is_empty() {
            self.case = Case::new(alloc);
            self.is_answered = false;
        }
        if self.is_answered {
            return Ok(());
        }
        self.text.extend_from_slice(line.as_bytes())?;
        self.text.push(b'\n')?;
        if line == ANSWERS {
            self.is_answered = true;
            return append_answers(rt, alloc, &self.case, self.usual.as_slice(), &mut self.text);
        }
        match line.strip_prefix("usually ") {
            Some(way) => append_word(alloc, &mut self.usual, way),
            None => self.case.read(alloc, line),
        }
    }
}
