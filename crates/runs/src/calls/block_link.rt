//! From what came of the blocks of a source to the buckets.
ghost use Rattle.std.specs.Prelude.{◌≡◌};
ghost use Rattle.runs.specs.Steps.{LinksAttempts, found_or_fault};

use crate::OutOfMemory;
use block_scan::{Attempts, BlockSource, BlockWork, SourceFault};
use gathering::{Inputs, Link, Linked};
use pipelines::Outcome;
use planning::{BucketTotal, BucketWork, DayPlan, PlanLink};
use scanning::WrongLength;
use std::alloc::{AllocError, Global};

/// Puts the pieces of all blocks together, and goes on as `PlanLink` does. It halts with the wrong length of least
/// place, or with why there are no rows: the source wasn't read whole, or is truncated.
#[derive(Drop)]
pub(crate) struct BlockLink<'a> {
    pub(crate) plan: PlanLink<'a>,
}

impl<'a, S: BlockSource + Send + Sync> Link<BlockWork<S>, BucketWork> for BlockLink<'a> {
    type Kept = DayPlan;

    type Stop = Result<WrongLength, SourceFault>;

    ghost Links = { λ link. LinksAttempts S.BlockSource.own link.plan };

    fn link(
        &self,
        alloc: Global,
        total: Attempts<S>,
    ) -> Result<Linked<Inputs<BucketWork>, DayPlan, Self::Stop>, OutOfMemory> {
        let scans = match total.join(alloc) {
            Ok(scans) => scans,
            Err(SourceFault::OutOfMemory) => return Err(AllocError),
            Err(fault) => return Ok(Linked::Halt { stop: Err(fault) }),
        };
        match self.plan.link(alloc, scans)? {
            Linked::Next { inputs, kept } => Ok(Linked::Next { inputs, kept }),
            Linked::Halt { stop: wrong } => Ok(Linked::Halt { stop: Ok(wrong) }),
        }
    }
}

/// What both pipelines found over the blocks of a source, or why it gives no rows.
pub(crate) fn found_or_fault(
    outcome: Outcome<BucketTotal, DayPlan, Result<WrongLength, SourceFault>>,
) -> Result<Outcome<BucketTotal, DayPlan, WrongLength>, SourceFault>
    ensures { result ≡ found_or_fault outcome }
{
    match outcome {
        Outcome::Finished { total, kept } => Ok(Outcome::Finished { total, kept }),
        Outcome::Stopped { stop } => match stop {
            Ok(wrong) => Ok(Outcome::Stopped { stop: wrong }),
            Err(fault) => Err(fault),
        },
    }
}
