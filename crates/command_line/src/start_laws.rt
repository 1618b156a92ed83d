//! A law of what is promised of jobs: the contract of a function that does nothing.
ghost use Rattle.std.specs.Prelude.{◌≡◌, ℕ, List, Option, None, Some, IsSomeAnd, string_bytes};
ghost use Rattle.arguments.specs.declared.arguments.Job.{Job as TheJob};
ghost use Rattle.command_line.specs.Outcomes.{Did, DidOpened, of_known};
ghost use Rattle.arguments.specs.Reports.{device};

use crate::day_files::{DayFiles, OpenDay};
use runs::{BlockSource, Counted, FileBlocks, Sink, Source};

/// Over a file system by which it is known what the file of a job's path holds, whichever way it is read, the job does
/// what a run of its query does over these bytes.
pub fn known_files_are_answered<F: DayFiles, K: Sink, L: Sink>()
    ensures { let blocks = ⟦<FileBlocks<F::File> as BlockSource>⟧ in
        (files : F) (job : TheJob) (was is : K) (before after : L) (status : ℕ) (all : List ℕ) →
        ((opened : Option F.File) → F.Opens files (string_bytes job.file) opened →
        IsSomeAnd opened (λ file. (F.File.remaining file ≡ Some all) ×
        ((told : ℕ) → F.File.Tells file (Some told) → F.File.contents file ≡ Some all))) →
        DidOpened job (device K.Sink was is) (device L.Sink before after) status (record {
          Tells = F.File.Tells;
          stream = ⟦<Counted<F::File> as Source>⟧;
          blocks = record { GaveAt = blocks.GaveAt; EndsAt = blocks.EndsAt; FailsAt = blocks.FailsAt };
          view = λ file. record { contents = F.File.contents file; descriptor = F.File.descriptor file };
        }) (F.Opens files (string_bytes job.file)) →
        Did job (device K.Sink was is) (device L.Sink before after) status (of_known job.settings.limit all) }
{}
