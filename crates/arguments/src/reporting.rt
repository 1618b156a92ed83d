//! Reports on the program's devices why there is no answer, or no job.
ghost use Rattle.std.specs.Prelude.{◌≡◌, false};
ghost use Rattle.arguments.specs.FaultLines.{line_of, status_of};
ghost use Rattle.arguments.specs.Reports.{Delivered, Explained, Reported, device, status_of_outcome};

use crate::arguments::WordsFault;
use crate::fault_lines::{line_of, status_of};
use outcomes::RunFault;
use sinks::{Sink, WriteFailed, deliver};

/// The status of wrong words on the command line.
const WRONG_WORDS: u8 = 2;

/// Reports how a run ended: nothing of an answer, and the line of a fault. Gives the status.
pub fn report<L: Sink>(outcome: Result<(), RunFault>, errors: &mut L) -> u8
    requires { L.has_failed errors.old ≡ false }
    ensures status { result ≡ status_of_outcome outcome }
    ensures reported { Reported (device L.Sink errors.old errors.new) outcome }
{
    match outcome {
        Ok(()) => 0,
        Err(fault) => tell(&fault, errors),
    }
}

/// Reports why the words ask for no job: help or the version on `out`, or what is wrong on `errors`.
/// Gives the program's status. Help that can't be written is a failed write, whose line goes to
/// `errors`, and so is a version; a text that `errors` can't take doesn't change the status.
pub fn explain<K: Sink, L: Sink>(fault: &WordsFault, out: &mut K, errors: &mut L) -> u8
    requires out { K.has_failed out.old ≡ false }
    requires errors { L.has_failed errors.old ≡ false }
    ensures { Explained (device K.Sink out.old out.new) (device L.Sink errors.old errors.new) result fault.now }
{
    match fault {
        WordsFault::Help { text } | WordsFault::Version { text } => {
            match deliver(out, text.as_bytes()) {
                Ok(()) => 0,
                Err(WriteFailed { written }) => tell(&RunFault::WriteFailed { written }, errors),
            }
        }
        WordsFault::Wrong { text } => {
            let _ = deliver(errors, text.as_bytes());
            WRONG_WORDS
        }
        WordsFault::Memory => tell(&RunFault::OutOfMemory, errors),
    }
}

/// Writes a fault's line, and gives its status. A line that can't be written doesn't change it.
pub fn tell<L: Sink>(fault: &RunFault, errors: &mut L) -> u8
    requires { L.has_failed errors.old ≡ false }
    ensures status { result ≡ status_of fault.now }
    ensures line { Delivered (device L.Sink errors.old errors.new) (line_of fault.now) }
{
    let line = line_of(fault);
    let _ = deliver(errors, line.as_slice());
    status_of(fault)
}
