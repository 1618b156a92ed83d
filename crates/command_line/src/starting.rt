//! Doing a job over a file system: which file is opened, and how it is read.
ghost use Rattle.std.specs.Prelude.{◌≡◌, ◌≢◌, false, codes, string_bytes};
ghost use Rattle.command_line.specs.Outcomes.{DidFile, DidOpened, DidStream};
ghost use Rattle.arguments.specs.Reports.{device};

use crate::day_files::{DayFiles, OpenDay};
use crate::performing::{perform, perform_blocks};
use arguments::{Job, tell};
use runs::{BlockSource, Counted, FileBlocks, RunFault, Sink, Source};
use std::alloc::Global;
use std::sync::Wait;
use std::thread::Threads;

/// The word for standard input in a file's place.
const STANDARD_INPUT: &str = "-";

/// Does a job on standard input, if its words say so, or else on the file of its path, which is opened. One that can't
/// be opened is reported before the query is looked at.
pub fn start<R: Threads + Wait + Sync, F: DayFiles, S: Source, K: Sink, L: Sink>(
    rt: &R,
    alloc: Global,
    files: &F,
    input: &mut S,
    job: &Job,
    out: &mut K,
    errors: &mut L,
) -> u8
    requires input { S.has_failed input.old ≡ false }
    requires out { K.has_failed out.old ≡ false }
    requires errors { L.has_failed errors.old ≡ false }
    ensures input { string_bytes job.now.file ≡ codes "-" → DidStream job.now (device K.Sink out.old out.new)
        (device L.Sink errors.old errors.new) result S.Source input.old input.new }
    ensures file { string_bytes job.now.file ≢ codes "-" → DidOpened job.now (device K.Sink out.old out.new)
        (device L.Sink errors.old errors.new) result
        (let blocks = ⟦<FileBlocks<F::File> as BlockSource>⟧ in record {
          Tells = F.File.Tells;
          stream = ⟦<Counted<F::File> as Source>⟧;
          blocks = record { GaveAt = blocks.GaveAt; EndsAt = blocks.EndsAt; FailsAt = blocks.FailsAt };
          view = λ file. record { contents = F.File.contents file; descriptor = F.File.descriptor file };
        }) (F.Opens files.now (string_bytes job.now.file)) }
    ensures alone { string_bytes job.now.file ≢ codes "-" → input.new ≡ input.old }
    ensures quiet { result ≡ 0 → errors.new ≡ errors.old }
{
    if job.file.as_str() == STANDARD_INPUT {
        return perform(rt, alloc, job, input, out, errors);
    }
    match files.open_day(job.file.as_str()) {
        Some(file) => perform_file(rt, alloc, job, file, out, errors),
        None => tell(&RunFault::ReadFailed, errors),
    }
}

/// Does a job on an open file: at places if it is a regular file and the words give no size of morsels, else in order.
fn perform_file<R: Threads + Wait + Sync, D: OpenDay, K: Sink, L: Sink>(
    rt: &R,
    alloc: Global,
    job: &Job,
    file: D,
    out: &mut K,
    errors: &mut L,
) -> u8
    requires out { K.has_failed out.old ≡ false }
    requires errors { L.has_failed errors.old ≡ false }
    ensures did { DidFile job.now (device K.Sink out.old out.new) (device L.Sink errors.old errors.new) result
        (let blocks = ⟦<FileBlocks<D> as BlockSource>⟧ in record {
          Tells = D.Tells;
          stream = ⟦<Counted<D> as Source>⟧;
          blocks = record { GaveAt = blocks.GaveAt; EndsAt = blocks.EndsAt; FailsAt = blocks.FailsAt };
          view = λ file. record { contents = D.contents file; descriptor = D.descriptor file };
        }) file }
    ensures quiet { result ≡ 0 → errors.new ≡ errors.old }
{
    let length = if job.morsel_given {
        None
    } else {
        file.regular_length()
    };
    match length {
        Some(length) => {
            let source = FileBlocks::of(file);
            perform_blocks(rt, alloc, job, source, length, out, errors)
        }
        None => {
            let mut source = Counted::of(file);
            perform(rt, alloc, job, &mut source, out, errors)
        }
    }
}
