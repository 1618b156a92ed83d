//! From the total of all morsels to the buckets.
ghost use Rattle.std.specs.Prelude.{◌≡◌, ℕ, ◌≤◌, IfOk, map};
ghost use Rattle.std.specs.Arc.{arc_value};
ghost use Rattle.gathering.specs.declared.linked.Linked.TheVariants.{Next};
ghost use Rattle.base.specs.declared.limits.TheConstants.{MOST_PARTITIONS};
ghost use Rattle.morsel_rows.specs.Partitions.{AreRowsByPlace, joined_partitions, partition_at};
ghost use Rattle.planning.specs.Planned.{LinkView, all_directory, linked_to, planned_buckets};

use crate::OutOfMemory;
use crate::bucket_work::BucketWork;
use crate::day_plan::DayPlan;
use crate::plan_making::{buckets_of, directory_of, plan};
use buckets::DayNames;
use gathering::{Inputs, Link, Linked};
use meaning::Query;
use morsel_rows::MorselRows;
use scanning::{ScanTotal, ScanWork, WrongLength};
use std::alloc::Global;
use std::marker::Model;
use std::sync::Arc;

/// Halts at a wrong length, and otherwise makes a bucket of each partition of the rows of all morsels, which they
/// share. The names, the breaks and the selection of the query are made here, once.
#[derive(Drop)]
pub struct PlanLink<'a> {
    query: &'a Query,
    parts: u32,
}

impl<'a> Model for PlanLink<'a> {
    ghost Value = { LinkView };

    ghost view = { λ link. record { query = link.query.now; parts = link.parts } };

    ghost invariant = { λ link. link.parts ≤ MOST_PARTITIONS };
}

impl<'a> PlanLink<'a> {
    /// The link of a query to `parts` buckets, one for each partition of the morsels' rows. Rows
    /// of a partition past the last bucket would be in none.
    pub fn new(query: &'a Query, parts: u32) -> Self
        requires { parts ≤ MOST_PARTITIONS }
        ensures { result ≡ record { query = query.now; parts = parts } }
    {
        PlanLink { query, parts }
    }

    /// The buckets of the rows of all morsels, and the names and the plan.
    fn go_on(
        &self,
        alloc: Global,
        morsels: Vec<Arc<MorselRows, Global>>,
    ) -> Result<Linked<Inputs<BucketWork>, DayPlan, WrongLength>, OutOfMemory>
        requires { (number : ℕ) → AreRowsByPlace
            (joined_partitions (map (partition_at number) (map arc_value morsels.items))) }
        ensures { IfOk result (λ linked. linked ≡ Next
            (planned_buckets self.now.query (map arc_value morsels.items) self.now.parts)
            (all_directory (map arc_value morsels.items))) }
    {
        let names = DayNames::build(alloc, directory_of(alloc, &morsels)?)?;
        let plan = Arc::new(alloc, plan(alloc, morsels, &names, self.query)?)?;
        let inputs = Inputs::of(buckets_of(alloc, &plan, self.parts)?);
        Ok(Linked::Next {
            inputs,
            kept: DayPlan { names, plan },
        })
    }
}

impl<'a> Link<ScanWork, BucketWork> for PlanLink<'a> {
    type Kept = DayPlan;

    type Stop = WrongLength;

    ghost Links = { λ link total linked. linked ≡ linked_to link total };

    fn link(
        &self,
        alloc: Global,
        total: ScanTotal,
    ) -> Result<Linked<Inputs<BucketWork>, DayPlan, WrongLength>, OutOfMemory> {
        match total.wrong() {
            Some(stop) => Ok(Linked::Halt { stop }),
            None => self.go_on(alloc, total.into_rows()),
        }
    }
}
