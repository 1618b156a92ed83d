//! A source that is read batch by batch, while threads scan the batch before.
ghost use Rattle.std.specs.Prelude.{◌≡◌, ◌<◌, ◌↔◌, false, true, IfErr, IfOk, IsErrOf, Ok, OnOk};
ghost use Rattle.day_file.specs.Sources.{IsSourceFault};
ghost use Rattle.streaming.specs.Readings.{of_stream};
ghost use Rattle.scanning.specs.Scans.{ScanTotalView, with_scans};
ghost use Rattle.streaming.specs.Batches.{read_length};
ghost use Rattle.streaming.specs.ScannedBatches.{IsBatchRead, IsReadWhole, IsScanOfBatch};
ghost use Rattle.streaming.specs.ScannedSoFar.{IsScannedTo};

use crate::OutOfMemory;
use crate::batch::Batch;
use crate::batches::BatchReader;
use day_file::{Cut, Source, SourceFault};
use outcomes::Settings;
use pipelines::{Crew, FreeGate, run_first};
use scanning::{Division, ScanTotal, batch_inputs};
use std::alloc::Global;
use std::mem;
use std::sync::{Arc, Wait};
use std::thread::{Threads, join_mut};

/// How many bytes the morsels of a batch have, or a little more: enough that each worker has several of
/// them, and little beside what a day's rows take.
const BATCH_BYTES: u64 = 32 << 20;

/// What was read of a whole source: all of a short one, or the scans of a longer one.
#[derive(Drop)]
pub enum WholeSource {
    Short(Cut),
    Long(ScanTotal),
}

/// How many tasks a batch has at least, and for each worker, if it has that many morsels.
const LEAST_TASKS: u32 = 8;

const TASKS_EACH: u32 = 2;

/// What the scans of all that a source gives add up to. The source is read and cut batch by batch: the morsels of one,
/// some neighbouring ones together, are the tasks of a pipeline, while the caller reads the next one. So no more than
/// two batches are in memory, and no bytes of those before. It waits for the threads. A source that is as short as one
/// block isn't scanned here.
///
/// It is refused as `BatchReader::next_batch` is, and if the caller's thread gets no memory for a scan.
pub fn scan_source<R: Threads + Wait + Sync, S: Source>(
    rt: &R,
    alloc: Global,
    source: &mut S,
    as_of: Option<u32>,
    settings: Settings,
) -> Result<WholeSource, SourceFault>
    requires source { S.has_failed source.old ≡ false }
    ensures scanned { IfOk result (IsReadWhole
        (of_stream S.Source settings.limit settings.morsel source.old source.new) as_of settings.parts) }
    ensures fault { IfErr result
        (IsSourceFault (of_stream S.Source settings.limit settings.morsel source.old source.new)) }
    ensures failed { IsErrOf result SourceFault.ReadFailed ↔ (S.has_failed source.new ≡ true) }
{
    let mut reader = BatchReader::new(alloc, settings.limit, settings.morsel, BATCH_BYTES);
    let batch = reader.next_batch(source)?;
    if batch.is_last && Division::of(batch.cut.length(), settings.crew.workers).blocks == 1 {
        return Ok(WholeSource::Short(batch.cut));
    }
    let total = ScanTotal::empty(alloc);
    let mut scanned = ScannedSoFar {
        reader,
        total,
        batch,
    };
    while !scanned.batch.is_last {
        scanned.go_on(rt, alloc, source, as_of, settings)?;
    }
    scanned.add_last(rt, alloc, as_of, settings)?;
    Ok(WholeSource::Long(scanned.total))
}

/// What the scans of a source's batches add up to so far, its reader, and the batch behind them.
#[derive(Drop)]
struct ScannedSoFar {
    reader: BatchReader,
    total: ScanTotal,
    batch: Batch,
}

impl ScannedSoFar {
    /// Scans the batch, while the next one is read.
    fn go_on<R: Threads + Wait + Sync, S: Source>(
        &mut self,
        rt: &R,
        alloc: Global,
        source: &mut S,
        as_of: Option<u32>,
        settings: Settings,
    ) -> Result<(), SourceFault>
        requires source { S.has_failed source.old ≡ false }
        requires more { self.old.batch.is_last ≡ false }
        ensures to { OnOk result ((before : S)
            → IsScannedTo S.Source settings.limit settings.morsel as_of settings.parts before source.old self.old
            → IsScannedTo S.Source settings.limit settings.morsel as_of settings.parts before source.new self.new) }
        ensures longer { OnOk result (self.new.batch.is_last ≡ false
            → read_length self.old.reader < read_length self.new.reader) }
        ensures fault { IfErr result (λ fault. (before : S)
            → IsScannedTo S.Source settings.limit settings.morsel as_of settings.parts before source.old self.old
            → IsSourceFault (of_stream S.Source settings.limit settings.morsel before source.new) fault) }
        ensures failed { IsErrOf result SourceFault.ReadFailed ↔ (S.has_failed source.new ≡ true) }
    {
        let reader = &mut self.reader;
        let (scans, next) = scan_ahead(rt, alloc, &self.batch, as_of, settings, reader, source);
        let batch = mem::replace(&mut self.batch, next?);
        self.reader.reuse(batch);
        Ok(take_in(&mut self.total, scans)?)
    }

    /// Adds the scans of the batch, which is the last one, to the total.
    fn add_last<R: Threads + Wait + Sync>(
        &mut self,
        rt: &R,
        alloc: Global,
        as_of: Option<u32>,
        settings: Settings,
    ) -> Result<(), OutOfMemory>
        ensures { OnOk result ((last : ScanTotalView) × IsScanOfBatch self.old.batch as_of settings.parts last
            × (self.new.total ≡ with_scans self.old.total last)) }
    {
        let scans = scan(rt, alloc, &self.batch, as_of, settings);
        take_in(&mut self.total, scans)
    }
}

/// Adds the scans of a batch to the total.
fn take_in(total: &mut ScanTotal, scans: Result<ScanTotal, OutOfMemory>) -> Result<(), OutOfMemory>
    ensures { OnOk result ((more : ScanTotalView) × (scans ≡ Ok more) × (total.new ≡ with_scans total.old more)) }
{
    total.append(scans?)
}

/// Scans a batch on threads of its own, while the caller's thread reads the next one.
fn scan_ahead<R: Threads + Wait + Sync, S: Source>(
    rt: &R,
    alloc: Global,
    batch: &Batch,
    as_of: Option<u32>,
    settings: Settings,
    reader: &mut BatchReader,
    source: &mut S,
) -> (Result<ScanTotal, OutOfMemory>, Result<Batch, SourceFault>)
    requires source { S.has_failed source.old ≡ false }
    ensures scans { IfOk result.0 (IsScanOfBatch batch.now as_of settings.parts) }
    ensures next { IsBatchRead S.Source source.old source.new reader.old reader.new result.1 }
{
    let mut scan = || -> Result<ScanTotal, OutOfMemory>
        ensures { IfOk result (IsScanOfBatch batch.entry.now as_of settings.parts) }
    { scan(rt, alloc, batch, as_of, settings) };
    let mut read = || -> Result<Batch, SourceFault>
        requires { S.has_failed source.now ≡ false }
        ensures { IsBatchRead S.Source source.entry.now source.exit.now
            reader.entry.now reader.exit.now result }
    { reader.next_batch(source) };
    join_mut(rt, &mut scan, &mut read)
}

/// What the scans of a batch add up to: its morsels, some neighbouring ones together, are the tasks of a pipeline.
fn scan<R: Threads + Wait + Sync>(
    rt: &R,
    alloc: Global,
    batch: &Batch,
    as_of: Option<u32>,
    settings: Settings,
) -> Result<ScanTotal, OutOfMemory>
    ensures { IfOk result (IsScanOfBatch batch.now as_of settings.parts) }
{
    let together = together_of(batch.cut.count(), settings.crew);
    let inputs = batch_inputs(
        alloc,
        &batch.cut,
        together,
        batch.first,
        batch.start,
        as_of,
        settings.parts,
    )?;
    let inputs = Arc::new(alloc, inputs)?;
    run_first(rt, alloc, &inputs, settings.crew, &FreeGate)
}

/// How many neighbouring morsels of a batch are scanned as one task. The more they are, the longer their lists of rows,
/// of which each task has three for each partition; the fewer, the sooner all workers are done with a batch.
fn together_of(morsels: u32, crew: Crew) -> usize
    ensures { 0 < result }
{
    let tasks = crew.workers.saturating_mul(TASKS_EACH).max(LEAST_TASKS);
    (morsels / tasks).max(1) as usize
}
