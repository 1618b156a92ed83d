//! What both pipelines found of a day: a fault, or what is listed, whose text is made while it is written.
ghost use Rattle.std.specs.Prelude.{◌≡◌, ℕ, List, false, Err};
ghost use Rattle.std.specs.List.{concat};
ghost use Rattle.answers.specs.Answers.{IsAnswer, IsAnswerToMessages};
ghost use Rattle.day_rows.specs.Messages.{Placed};
ghost use Rattle.planning.specs.AllBuckets.{AreGatheredOf};
ghost use Rattle.runs.specs.Made.{IsHandedOrRefused, IsOutcomeOf, IsReady, told};
ghost use Rattle.runs.specs.Runs.{is_write_failed};
ghost use Rattle.runs.specs.Steps.{outcome_of};

use crate::OutOfMemory;
use answers::DayFault;
use buckets::{DayNames, Plan};
use meaning::What;
use outcomes::RunFault;
use pipelines::Outcome;
use planning::{BucketTotal, DayPlan, fault_of, put_text, put_text_alone};
use query::Query;
use scanning::WrongLength;
use sinks::{Sink, WriteFailed};
use std::alloc::{AllocError, Global};
use std::sync::{Arc, Wait};
use std::thread::{self, Threads};

/// What comes of a day.
#[derive(Drop)]
pub enum Made {
    /// The fault that is reported of it.
    Faulty(DayFault),
    /// What is listed of it.
    Listed(ListedDay),
}

/// What all buckets of a day list, and the names of its locates. `plan` has what both were made of, which is freed once
/// the text is begun. `threads` threads make the text, or the caller's if that is none.
#[derive(Drop)]
pub struct ListedDay {
    what: What,
    total: BucketTotal,
    names: DayNames,
    plan: Arc<Plan, Global>,
    threads: u32,
}

impl Made {
    /// Writes the text to a sink, or reports the fault. It is refused, with nothing written, if there is no memory to
    /// begin with. It waits for the threads that make the text, and for one that frees what it was made of.
    pub fn hand_over<R: Threads + Wait + Sync, K: Sink>(
        self,
        rt: &R,
        alloc: Global,
        sink: &mut K,
    ) -> Result<(), RunFault>
        requires ready { IsReady self }
        requires whole { K.has_failed sink.old ≡ false }
        ensures handed { IsHandedOrRefused K.Sink (λ answer. told self ≡ answer) sink.old sink.new result }
        ensures write_failed { K.has_failed sink.new ≡ is_write_failed result }
    {
        let day = match self {
            Made::Faulty(fault) => return Err(RunFault::Day(fault)),
            Made::Listed(day) => day,
        };
        if day.threads == 0 {
            return day.put_alone(alloc, sink);
        }
        let ListedDay {
            what,
            total,
            names,
            plan,
            threads,
        } = day;
        // (without a thread, what it was to free is let go with the error)
        let freeing = thread::spawn(rt, move || drop(plan)).ok();
        let put = put_text(
            rt,
            alloc,
            what,
            total.products(),
            names.names(),
            threads,
            sink,
        );
        if let Some(freeing) = freeing {
            freeing.join(rt);
        }
        fault_or_done(put)
    }

    /// The same on the caller's thread. It waits for nothing.
    pub fn hand_over_alone<K: Sink>(self, alloc: Global, sink: &mut K) -> Result<(), RunFault>
        requires ready { IsReady self }
        requires whole { K.has_failed sink.old ≡ false }
        ensures handed { IsHandedOrRefused K.Sink (λ answer. told self ≡ answer) sink.old sink.new result }
        ensures write_failed { K.has_failed sink.new ≡ is_write_failed result }
    {
        match self {
            Made::Faulty(fault) => Err(RunFault::Day(fault)),
            Made::Listed(day) => day.put_alone(alloc, sink),
        }
    }
}

impl ListedDay {
    /// Writes the text to a sink on the caller's thread, which frees first what it was made of.
    fn put_alone<K: Sink>(self, alloc: Global, sink: &mut K) -> Result<(), RunFault>
        requires ready { IsReady (Made.Listed self) }
        requires whole { K.has_failed sink.old ≡ false }
        ensures handed { IsHandedOrRefused K.Sink (λ answer. told (Made.Listed self) ≡ answer)
            sink.old sink.new result }
        ensures write_failed { K.has_failed sink.new ≡ is_write_failed result }
    {
        let ListedDay {
            what,
            total,
            names,
            plan,
            ..
        } = self;
        drop(plan);
        let put = put_text_alone(alloc, what, total.products(), names.names(), sink);
        fault_or_done(put)
    }
}

/// What comes of the outcome of both pipelines. `threads` threads make its text, or the caller's if that is none.
pub fn made_of(
    query: &Query,
    outcome: Outcome<BucketTotal, DayPlan, WrongLength>,
    threads: u32,
) -> Made
    requires outcome { (runs : List (List ℕ)) × IsOutcomeOf query.now outcome runs }
    ensures answers { (runs : List (List ℕ)) → IsOutcomeOf query.now outcome runs →
        IsAnswer (concat runs) query.now (told result) }
    ensures ready { IsReady result }
{
    match outcome {
        Outcome::Finished { total, kept } => made_of_total(query, total, kept, threads),
        Outcome::Stopped { stop } => Made::Faulty(fault_of_length(stop)),
    }
}

/// What comes of the total of all buckets: the first fault in the references, or what they list. `threads` threads make
/// its text, or the caller's if that is none.
pub fn made_of_total(query: &Query, total: BucketTotal, kept: DayPlan, threads: u32) -> Made
    requires gathered { (messages : List Placed) × AreGatheredOf query.now total kept messages }
    ensures answers { (messages : List Placed) → AreGatheredOf query.now total kept messages →
        IsAnswerToMessages messages query.now (told result) }
    ensures ready { IsReady result }
{
    match fault_of(&total) {
        Some(fault) => Made::Faulty(fault),
        None => {
            let DayPlan { names, plan } = kept;
            Made::Listed(ListedDay {
                what: query.what,
                total,
                names,
                plan,
                threads,
            })
        }
    }
}

/// The fault of a wrong length that the first pipeline found.
pub fn fault_of_length(wrong: WrongLength) -> DayFault
    ensures { result ≡ DayFault.WrongLength wrong.place wrong.fault.kind wrong.fault.length wrong.fault.wanted }
{
    DayFault::WrongLength {
        place: wrong.place,
        kind: wrong.fault.kind,
        length: wrong.fault.length,
        wanted: wrong.fault.wanted,
    }
}

/// What is reported of a text that was written or not.
fn fault_or_done(put: Result<Result<(), WriteFailed>, OutOfMemory>) -> Result<(), RunFault>
    ensures { result ≡ outcome_of put }
{
    match put {
        Ok(Ok(())) => Ok(()),
        Ok(Err(WriteFailed { written })) => Err(RunFault::WriteFailed { written }),
        Err(AllocError) => Err(RunFault::OutOfMemory),
    }
}
