//! Doing a job on devices: the answer to one, its fault to the other, and the status.
ghost use Rattle.std.specs.Prelude.{◌≡◌, ◌==◌, false};
ghost use Rattle.command_line.specs.Outcomes.{Did};
ghost use Rattle.block_scan.specs.Blocks.{of_blocks};
ghost use Rattle.streaming.specs.Readings.{of_stream};
ghost use Rattle.arguments.specs.FaultLines.{status_of};
ghost use Rattle.arguments.specs.Reports.{device};

use arguments::{Job, report};
use runs::{BlockSource, RunFault, Sink, Source, run, run_blocks};
use std::alloc::Global;
use std::sync::Wait;
use std::thread::Threads;

/// Does a job: reads the day file from the source, and writes the answer to `out`, or one line that
/// says why there is none to `errors`. Gives the program's status. A line that can't be written
/// doesn't change it. It waits for the threads that find the answer.
pub fn perform<R: Threads + Wait + Sync, S: Source, K: Sink, L: Sink>(
    rt: &R,
    alloc: Global,
    job: &Job,
    source: &mut S,
    out: &mut K,
    errors: &mut L,
) -> u8
    requires source { S.has_failed source.old ≡ false }
    requires out { K.has_failed out.old ≡ false }
    requires errors { L.has_failed errors.old ≡ false }
    ensures did { Did job.now (device K.Sink out.old out.new) (device L.Sink errors.old errors.new) result
        (of_stream S.Source job.now.settings.limit job.now.settings.morsel source.old source.new) }
    ensures read_failed { S.has_failed source.new ≡ (result == status_of RunFault.ReadFailed) }
    ensures quiet { result ≡ 0 → errors.new ≡ errors.old }
{
    let outcome = run(rt, alloc, source, job.query.as_str(), job.settings, out);
    report(outcome, errors)
}

/// Does a job on a source that is read at places, by several threads at once: `length` is how many bytes it is expected
/// to have, and no answer depends on it. Else as `perform`; the size of morsels has no part in it.
pub fn perform_blocks<R: Threads + Wait + Sync, S: BlockSource + Send + Sync, K: Sink, L: Sink>(
    rt: &R,
    alloc: Global,
    job: &Job,
    source: S,
    length: u64,
    out: &mut K,
    errors: &mut L,
) -> u8
    requires out { K.has_failed out.old ≡ false }
    requires errors { L.has_failed errors.old ≡ false }
    ensures did { Did job.now (device K.Sink out.old out.new) (device L.Sink errors.old errors.new) result
        (of_blocks S.BlockSource.own job.now.settings.limit source) }
    ensures quiet { result ≡ 0 → errors.new ≡ errors.old }
{
    let query = job.query.as_str();
    let outcome = run_blocks(rt, alloc, source, length, query, job.settings, out);
    report(outcome, errors)
}
