//! Laws of what is promised of runs. Each is the contract of a function that does nothing.
ghost use Rattle.std.specs.Prelude.{◌≡◌, ◌<◌, ◌≤◌, ℕ, false, List, [], ◌∷◌, length, Some, Result, Ok, Err};
ghost use Rattle.outcomes.specs.declared.day_fault.DayFault.{DayFault as TheDayFault};
ghost use Rattle.outcomes.specs.declared.run_fault.RunFault.{RunFault as TheRunFault};
ghost use Rattle.meaning.specs.Meaning.{Meaning};
ghost use Rattle.answers.specs.Answers.{IsAnswer};
ghost use Rattle.streaming.specs.Readings.{of_stream};
ghost use Rattle.block_scan.specs.Blocks.{FileView, GaveWhole, of_blocks};
ghost use Rattle.runs.specs.Runs.{Answers, IsAnswered, Ran, is_write_failed};

use block_scan::{BlockSource, FileBlocks, ReadsAt};
use outcomes::RunFault;
use sinks::Sink;
use streaming::Source;

/// A stream that can have given only one list of bytes, from one state to another, has one answer.
pub fn one_run<S: Source>()
    ensures { ((a b : S) (xs ys : List ℕ) → S.Gave a b xs → S.Gave a b ys → xs ≡ ys) →
        (limit target : ℕ) (before after : S) (words : List ℕ) (one other : Result (List ℕ) TheDayFault) →
        Answers (of_stream S.Source limit target before after) words one →
        Answers (of_stream S.Source limit target before after) words other → one ≡ other }
{}

/// A source that is read at places, and can have given only one list of bytes up to its end, has one answer.
pub fn one_run_of_blocks<S: BlockSource>()
    ensures { (limit : ℕ) (source : S) →
        ((xs ys : List ℕ) → GaveWhole S.BlockSource.own limit source xs →
        GaveWhole S.BlockSource.own limit source ys → xs ≡ ys) →
        (words : List ℕ) (one other : Result (List ℕ) TheDayFault) →
        Answers (of_blocks S.BlockSource.own limit source) words one →
        Answers (of_blocks S.BlockSource.own limit source) words other → one ≡ other }
{}

/// Of a file whose bytes are known, each answer is the answer to these bytes. No reading of it fails, and it is too
/// long only if it has more bytes than the limit.
pub fn known_bytes_are_answered<F: ReadsAt>()
    ensures answered { let device = ⟦<FileBlocks<F> as BlockSource>⟧ in
        (limit : ℕ) (file : FileView) (all : List ℕ) (query : Meaning) (told : Result (List ℕ) TheDayFault) →
        file.contents ≡ Some all → IsAnswered (of_blocks
        (record { GaveAt = device.GaveAt; EndsAt = device.EndsAt; FailsAt = device.FailsAt }) limit file) query told →
        IsAnswer all query told }
    ensures refused { let device = ⟦<FileBlocks<F> as BlockSource>⟧ in
        (limit : ℕ) (file : FileView) (all : List ℕ) → file.contents ≡ Some all →
        let reading = of_blocks
        (record { GaveAt = device.GaveAt; EndsAt = device.EndsAt; FailsAt = device.FailsAt }) limit file in
        (reading.failed → ⊥) × (reading.longer → limit < length all) }
{}

/// What the outcomes of `run` say: an answer, that the stream is at its end, and that the sink passed on what it took;
/// too long, that the stream gave more than the limit; each refusal but that of the sink, that the sink is as before.
pub fn outcomes_of_run<S: Source, K: Sink>()
    ensures ended { (limit target : ℕ) (before after : S) (words : List ℕ) (told : Result (List ℕ) TheDayFault) →
        Answers (of_stream S.Source limit target before after) words told →
        (day : List ℕ) × S.Gave before after day × S.HasEnded after × (length day ≤ limit) }
    ensures too_long { (limit target most : ℕ) (before after : S) (words : List ℕ) (was is : K) →
        Ran (of_stream S.Source limit target before after) K.Sink words limit was is (Err (RunFault.TooLong most)) →
        (bytes : List ℕ) × S.Gave before after bytes × (most < length bytes) }
    ensures written { (limit target : ℕ) (before after : S) (words : List ℕ) (was is : K) (done : Unit {0}) →
        Ran (of_stream S.Source limit target before after) K.Sink words limit was is (Ok done) →
        (text : List ℕ) × K.Took was is text × K.HasFlushed is }
    ensures refused { (limit target : ℕ) (before after : S) (words : List ℕ) (was is : K) (fault : TheRunFault) →
        is_write_failed {T = Unit {0}} (Err fault) ≡ false →
        Ran (of_stream S.Source limit target before after) K.Sink words limit was is (Err fault) → is ≡ was }
{}

/// What the outcomes of `run_blocks` say: an answer, that a reading found no byte behind those that were read, and that
/// the sink passed on what it took; too long, that a reading gave the byte at the limit; a failed reading, that one
/// failed; each refusal but that of the sink, that the sink is as before.
pub fn outcomes_of_run_blocks<S: BlockSource, K: Sink>()
    ensures ended { (limit : ℕ) (source : S) (words : List ℕ) (told : Result (List ℕ) TheDayFault) →
        Answers (of_blocks S.BlockSource.own limit source) words told →
        (day : List ℕ) × S.GaveAt source 0 day × S.EndsAt source (length day) × (length day ≤ limit) }
    ensures too_long { (limit most : ℕ) (source : S) (words : List ℕ) (was is : K) →
        Ran (of_blocks S.BlockSource.own limit source) K.Sink words limit was is (Err (RunFault.TooLong most)) →
        (byte : ℕ) × S.GaveAt source most (byte ∷ []) }
    ensures failed { (limit : ℕ) (source : S) (words : List ℕ) (was is : K) →
        Ran (of_blocks S.BlockSource.own limit source) K.Sink words limit was is (Err RunFault.ReadFailed) →
        (place : ℕ) × S.FailsAt source place }
    ensures written { (limit : ℕ) (source : S) (words : List ℕ) (was is : K) (done : Unit {0}) →
        Ran (of_blocks S.BlockSource.own limit source) K.Sink words limit was is (Ok done) →
        (text : List ℕ) × K.Took was is text × K.HasFlushed is }
    ensures refused { (limit : ℕ) (source : S) (words : List ℕ) (was is : K) (fault : TheRunFault) →
        is_write_failed {T = Unit {0}} (Err fault) ≡ false →
        Ran (of_blocks S.BlockSource.own limit source) K.Sink words limit was is (Err fault) → is ≡ was }
{}
