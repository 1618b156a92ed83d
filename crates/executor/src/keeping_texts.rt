//! What comes of a day as an answer, whose text is kept in memory.
ghost use Rattle.std.specs.Prelude.{◌≡◌, IfOk};
ghost use Rattle.answers.specs.Answers.{told_by};
ghost use Rattle.executor.specs.Collected.{IsCollected};
ghost use Rattle.runs.specs.Made.{IsReady, told};
ghost use Rattle.sinks.specs.Counted.{bytes_of};

use crate::OutOfMemory;
use answers::{Answer, Text};
use outcomes::RunFault;
use runs::Made;
use sinks::Collected;
use std::alloc::{AllocError, Global};
use std::sync::Wait;
use std::thread::Threads;

/// The answer, whose text is kept in memory.
pub(crate) fn into_answer<R: Threads + Wait + Sync>(
    rt: &R,
    alloc: Global,
    made: Made,
) -> Result<Answer, OutOfMemory>
    requires { IsReady made }
    ensures { IfOk result (λ answer. told_by answer ≡ told made) }
{
    let mut text = Collected::new(alloc);
    let handed = made.hand_over(rt, alloc, &mut text);
    answer_of(handed, text)
}

/// The same on the caller's thread.
pub(crate) fn into_answer_alone(alloc: Global, made: Made) -> Result<Answer, OutOfMemory>
    requires { IsReady made }
    ensures { IfOk result (λ answer. told_by answer ≡ told made) }
{
    let mut text = Collected::new(alloc);
    let handed = made.hand_over_alone(alloc, &mut text);
    answer_of(handed, text)
}

/// The answer whose text was written to a vector. It is refused if that failed.
fn answer_of(handed: Result<(), RunFault>, text: Collected<Global>) -> Result<Answer, OutOfMemory>
    ensures { IfOk result (λ answer. IsCollected handed (bytes_of text) (told_by answer)) }
{
    match handed {
        Ok(()) => Ok(Answer::Printed(Text::of(text.into_bytes()))),
        Err(RunFault::Day(fault)) => Ok(Answer::Faulty(fault)),
        Err(_) => Err(AllocError),
    }
}
