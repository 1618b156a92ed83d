//! Reading a source in batches of morsels.
ghost use Rattle.std.specs.Prelude.{◌≡◌, ◌≤◌, ◌<◌, ◌+◌, ◌++◌, ◌↔◌, ℕ, List, [], length, true, false};
ghost use Rattle.std.specs.Prelude.{IfErr, IfOk, IfSome, IsErrOf, IsNone, OnErr, OnOk};
ghost use Rattle.std.specs.List.{concat};
ghost use Rattle.base.specs.declared.limits.TheConstants.{LONGEST_FILE, MOST_MORSELS};
ghost use Rattle.cutting.specs.Cutting.{IsCutBy};
ghost use Rattle.cutting.specs.Feeding.{HasFed, fed_length};
ghost use Rattle.streaming.specs.Batches.{HasRead, IsLastFault, IsNextBatch, IsReadTo, IsReading};
ghost use Rattle.streaming.specs.Batches.{ReaderView, read_length};
ghost use Rattle.day_file.specs.Sources.{IsSourceFault};
ghost use Rattle.streaming.specs.Readings.{of_stream};

use crate::batch::Batch;
use cutting::{CutFault, Cutter};
use day_file::{LONGEST_FILE, MOST_MORSELS, Source, SourceFault};
use std::alloc::Global;
use std::marker::Model;
use std::mem;

/// Reads a source of at most `limit` bytes to its end, and cuts what it gives into batches of morsels, which are,
/// joined, the morsels of the whole: each is the shortest run of frames that has at least `target` bytes, or the rest.
/// Besides a batch it holds no more than a morsel that is not full yet, into whose vector the source's bytes are read,
/// and the vectors of a batch that was given back.
#[derive(Drop)]
pub struct BatchReader {
    alloc: Global,
    limit: u64,
    target: u64,
    batch: u64,
    start: u64,
    first: u32,
    cutter: Cutter,
}

impl Model for BatchReader {
    ghost Value = { ReaderView };

    ghost view = { λ r. record {
      limit = r.limit;
      target = r.target;
      start = r.start;
      first = r.first;
      cutter = r.cutter;
    } };

    ghost invariant = { λ r. IsReading r.limit r.target r.start r.first r.cutter };
}

impl BatchReader {
    /// A reader that has read nothing yet. Each of its batches but the last will have at least `batch` bytes.
    pub fn new(alloc: Global, limit: u64, target: u64, batch: u64) -> Self
        requires limit { limit ≤ LONGEST_FILE }
        requires target { 0 < target }
        ensures same { (result.limit ≡ limit) × (result.target ≡ target) }
        ensures none { HasRead result [] [] }
    {
        BatchReader {
            alloc,
            limit,
            target,
            batch,
            start: 0,
            first: 0,
            cutter: Cutter::new(alloc, target),
        }
    }

    /// How many bytes it has read.
    pub fn length(&self) -> u64
        ensures same { result ≡ read_length self.now }
        ensures within { result ≤ self.now.limit }
        ensures limit { self.now.limit ≤ LONGEST_FILE }
    {
        self.start + self.cutter.length()
    }

    /// Reads and cuts the next batch. It asks for at most 65,536 bytes a call and for at most
    /// `limit` + 1 in all, and stops at the first call that fails. If there are too many morsels, all
    /// is read to the end, since a truncated stream is reported as that.
    pub fn next_batch<S: Source>(&mut self, source: &mut S) -> Result<Batch, SourceFault>
        requires source { S.has_failed source.old ≡ false }

        // What was read goes on, until it is all that the source had to give; the runs of the batches,
        // joined, are then its cut.
        ensures next { IfOk result (IsNextBatch S.Source source.old source.new self.old self.new) }
        ensures same { (self.new.limit ≡ self.old.limit) × (self.new.target ≡ self.old.target) }

        // After a refusal the reader has read what its batches have, and nothing more: what else it had read is lost.
        ensures left { OnErr result ((runs : List (List ℕ)) (bytes : List ℕ)
            → HasRead self.old runs bytes → HasRead self.new runs (concat runs)) }
        ensures fault { IfErr result (λ fault. (before : S) (runs : List (List ℕ))
            → IsReadTo S.Source before source.old runs self.old
            → IsSourceFault (of_stream S.Source self.old.limit self.old.target before source.new) fault) }
        ensures failed { IsErrOf result SourceFault.ReadFailed ↔ (S.has_failed source.new ≡ true) }
    {
        let read = self.read_batch(source);
        if read.is_err() {
            self.cutter = Cutter::new(self.alloc, self.target);
        }
        read
    }

    /// Takes a batch that isn't needed any more: the next morsels stand in the vectors of those of its morsels that
    /// nobody else holds.
    pub fn reuse(&mut self, batch: Batch)
        ensures { self.new ≡ self.old }
    {
        self.cutter.reuse(batch.cut);
    }

    // Reads and cuts the next batch. A refusal may leave bytes in the cutter that were in no batch, or take them away.
    fn read_batch<S: Source>(&mut self, source: &mut S) -> Result<Batch, SourceFault>
        requires source { S.has_failed source.old ≡ false }
        ensures next { IfOk result (IsNextBatch S.Source source.old source.new self.old self.new) }
        ensures same { (self.new.limit ≡ self.old.limit) × (self.new.target ≡ self.old.target) }
        ensures left { OnErr result (self.new ≡ record self.old { cutter = self.new.cutter }) }
        ensures fault { IfErr result (λ fault. (before : S) (runs : List (List ℕ))
            → IsReadTo S.Source before source.old runs self.old
            → IsSourceFault (of_stream S.Source self.old.limit self.old.target before source.new) fault) }
        ensures failed { IsErrOf result SourceFault.ReadFailed ↔ (S.has_failed source.new ≡ true) }
    {
        while self.feed(source)? {
            if let Some(batch) = self.take_batch() {
                return Ok(batch);
            }
        }
        let none = Cutter::new(self.alloc, self.target);
        let cutter = mem::replace(&mut self.cutter, none);
        last_batch(cutter, self.first, self.start)
    }

    // Feeds the cutter what one call of the source gives, and says whether it gave any byte.
    fn feed<S: Source>(&mut self, source: &mut S) -> Result<bool, SourceFault>
        requires source { S.has_failed source.old ≡ false }
        ensures read { OnOk result ((before : S) (runs : List (List ℕ))
            → IsReadTo S.Source before source.old runs self.old → IsReadTo S.Source before source.new runs self.new) }
        ensures end { IfOk result (λ more. more ≡ false → S.HasEnded source.new) }
        ensures longer { IfOk result (λ more. more ≡ true → read_length self.old < read_length self.new) }
        ensures within { OnOk result (read_length self.new ≤ self.new.limit) }
        ensures same { self.new ≡ record self.old { cutter = self.new.cutter } }
        ensures fault { IfErr result (λ fault. (before : S) (runs : List (List ℕ))
            → IsReadTo S.Source before source.old runs self.old
            → IsSourceFault (of_stream S.Source self.old.limit self.old.target before source.new) fault) }
        ensures failed { IsErrOf result SourceFault.ReadFailed ↔ (S.has_failed source.new ≡ true) }
    {
        let left = self.limit - self.length();
        Ok(self.cutter.feed(source, left)? > 0)
    }

    // Takes the morsels that were cut so far, if they are a batch and not too many.
    fn take_batch(&mut self) -> Option<Batch>
        ensures none { IsNone result → self.new ≡ self.old }
        ensures taken { IfSome result (λ batch. (runs : List (List ℕ)) (bytes : List ℕ)
            → HasRead self.old runs bytes → HasRead self.new (runs ++ batch.cut) bytes) }
        ensures place { IfSome result (λ batch. (batch.first ≡ self.old.first) × (batch.start ≡ self.old.start)) }
        ensures more { IfSome result (λ batch. batch.is_last ≡ false) }
        ensures length { read_length self.new ≡ read_length self.old }
        ensures same { (self.new.limit ≡ self.old.limit) × (self.new.target ≡ self.old.target) }
    {
        let so_far = self.cutter.cut_so_far();
        if so_far.length() < self.batch || self.first + so_far.count() > MOST_MORSELS {
            return None;
        }
        let cut = self.cutter.take_cut()?;
        let first = self.first;
        let start = self.start;
        self.first += cut.count();
        self.start += cut.length();
        Some(Batch {
            cut,
            first,
            start,
            is_last: false,
        })
    }
}

// The rest, once the source is at its end: what is left in the cutter, behind `first` morsels of `start` bytes.
fn last_batch(cutter: Cutter, first: u32, start: u64) -> Result<Batch, SourceFault>
    requires few { first ≤ MOST_MORSELS }
    requires within { (fed : List ℕ) × HasFed cutter fed × (start + length fed ≤ LONGEST_FILE) }
    ensures last { IfOk result (λ batch. (batch.first ≡ first) × (batch.start ≡ start) × (batch.is_last ≡ true)
        × ((fed : List ℕ) → HasFed cutter fed → IsCutBy cutter.target batch.cut fed)) }
    ensures fault { IfErr result (λ fault. (fed : List ℕ) → HasFed cutter fed
        → IsLastFault first start cutter.target fed fault) }
    ensures device { IsErrOf result SourceFault.ReadFailed → ⊥ }
{
    match cutter.finish() {
        Ok(cut) => {
            if first + cut.count() > MOST_MORSELS {
                return Err(SourceFault::TooManyMorsels);
            }
            Ok(Batch {
                cut,
                first,
                start,
                is_last: true,
            })
        }
        Err(CutFault::Truncated { place }) => Err(SourceFault::Truncated {
            place: start + place,
        }),
        Err(CutFault::NotABoundary { .. }) => unreachable!(),
        Err(CutFault::TooManyMorsels) => Err(SourceFault::TooManyMorsels),
        Err(CutFault::OutOfMemory) => Err(SourceFault::OutOfMemory),
    }
}
