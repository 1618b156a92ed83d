//! The program, which answers a query over a day file of Nasdaq TotalView-ITCH 5.0. `main` collects its words, hands
//! the system's files and the streams to `command_line`, and ends with the status that it is given.
//!
//! Not proved: that the words, the streams and the status are passed on as they are. No clause can say what stands in a
//! file system or on a terminal; runs of the built program show it.
#![tactic(auto)]

use command_line::{Counted, CountedSink, Job, WordsFault, command, explain, reading_fault, start};
use std::env;
use std::process::ExitCode;

fn main(rt: HostRuntime) -> ExitCode {
    let mut input = Counted::of(rt.stdin());
    let mut out = CountedSink::of(rt.stdout());
    let mut errors = CountedSink::of(rt.stderr());
    let status = match job_of_words(&rt) {
        Ok(job) => start(
            &rt,
            rt.alloc(),
            &rt,
            &mut input,
            &job,
            &mut out,
            &mut errors,
        ),
        Err(fault) => explain(&fault, &mut out, &mut errors),
    };
    ExitCode::from(status)
}

/// The job that the program's words ask for.
fn job_of_words(rt: &HostRuntime) -> Result<Job, WordsFault> {
    let given = match env::args(rt) {
        Ok(given) => given,
        Err(error) => return Err(reading_fault(rt.alloc(), error.kind())),
    };
    let words: Vec<String> = given.collect(rt.alloc())?;
    command(rt.alloc(), words.as_slice())
}
