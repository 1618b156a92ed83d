//! What all buckets share, and the buckets.
ghost use Rattle.std.specs.Prelude.{◌≡◌, ℕ, IfOk, map};
ghost use Rattle.std.specs.Arc.{arc_value};
ghost use Rattle.base.specs.Least.{numbers_below};
ghost use Rattle.meaning.specs.Meaning.{HasWidth};
ghost use Rattle.morsel_rows.specs.Partitions.{AreRowsByPlace, joined_partitions};
ghost use Rattle.buckets.specs.BucketRows.{bucket_of, planned_rows};
ghost use Rattle.planning.specs.Planned.{all_breaks, all_directory};
ghost use Rattle.buckets.specs.Plans.{rising, selection_of};

use crate::OutOfMemory;
use broken_trades::Breaks;
use buckets::{Bucket, DayNames, Plan};
use meaning::{Query, selection};
use morsel_rows::MorselRows;
use std::alloc::Global;
use std::sync::Arc;
use time_and_sales::DirectoryRow;

/// The breaks of all morsels.
fn breaks_of(alloc: Global, morsels: &[Arc<MorselRows, Global>]) -> Result<Breaks, OutOfMemory>
    ensures { IfOk result (λ breaks. breaks ≡ rising (all_breaks (map arc_value morsels.now))) }
{
    let mut rows = Vec::new(alloc);
    for morsel in morsels {
        rows.extend_from_slice(morsel.breaks())?;
    }
    Ok(Breaks::from_rows(rows))
}

/// The directory rows of all morsels.
pub(crate) fn directory_of(
    alloc: Global,
    morsels: &[Arc<MorselRows, Global>],
) -> Result<Vec<DirectoryRow>, OutOfMemory>
    ensures { IfOk result (λ rows. rows.items ≡ all_directory (map arc_value morsels.now)) }
{
    let mut rows = Vec::new(alloc);
    for morsel in morsels {
        rows.extend_from_slice(morsel.directory())?;
    }
    Ok(rows)
}

/// What all buckets share.
pub(crate) fn plan(
    alloc: Global,
    morsels: Vec<Arc<MorselRows, Global>>,
    names: &DayNames,
    query: &Query,
) -> Result<Plan, OutOfMemory>
    ensures rows { IfOk result (λ plan. plan.rows.items ≡ morsels.items) }
    ensures breaks { IfOk result (λ plan. plan.breaks ≡ rising (all_breaks (map arc_value morsels.items))) }
    ensures selection { IfOk result (λ plan. plan.selection ≡ selection_of query.now names.now) }
    ensures what { IfOk result (λ plan. plan.what ≡ query.now.what) }
    ensures width { IfOk result (λ plan. HasWidth plan.what) }
{
    let breaks = breaks_of(alloc, &morsels)?;
    let selection = selection(alloc, query, names.names())?;
    Ok(Plan {
        rows: morsels,
        breaks,
        selection,
        what: query.what,
    })
}

/// The buckets of a plan, in order: one of each partition.
#[tactic(auto, using(crate::proofs::PlannedLists::numbering))]
pub(crate) fn buckets_of(
    alloc: Global,
    plan: &Arc<Plan, Global>,
    parts: u32,
) -> Result<Vec<Arc<Bucket, Global>>, OutOfMemory>
    requires rows { (number : ℕ) → AreRowsByPlace (joined_partitions (planned_rows number (arc_value plan.now))) }
    requires width { HasWidth (arc_value plan.now).what }
    ensures { IfOk result (λ buckets. map arc_value buckets.items
        ≡ map (bucket_of (arc_value plan.now)) (numbers_below parts)) }
{
    let mut buckets = Vec::with_capacity(alloc, parts as usize)?;
    for number in 0..parts {
        let bucket = Bucket::of(number, Arc::try_clone(plan)?);
        buckets.push(Arc::new(alloc, bucket)?)?;
    }
    Ok(buckets)
}
