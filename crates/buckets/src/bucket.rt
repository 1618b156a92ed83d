//! A bucket.
ghost use Rattle.std.specs.Prelude.{◌≡◌, IfOk};
ghost use Rattle.std.specs.Arc.{arc_value};
ghost use Rattle.std.specs.Cmp.{partial_equiv_from_equiv};
ghost use Rattle.meaning.specs.Meaning.{HasWidth};
ghost use Rattle.morsel_rows.specs.Partitions.{AreRowsByPlace, joined_partitions};
ghost use Rattle.buckets.specs.BucketRows.{BucketView, bucket_of, planned_rows, rows_of_partitions};
ghost use Rattle.buckets.specs.Buckets.{bucket_equiv, is_same_bucket};

use crate::OutOfMemory;
use crate::partition_rows::{filled_partitions, same_rows};
use crate::plan::Plan;
use broken_trades::Breaks;
use meaning::What;
use morsel_rows::Partition;
use probe::Selection;
use std::alloc::Global;
use std::marker::Model;
use std::sync::Arc;

/// The rows of one partition in all morsels, and what is asked of them. Contracts see them as plain data.
#[derive(Drop)]
pub struct Bucket {
    number: u32,
    plan: Arc<Plan, Global>,
}

impl Model for Bucket {
    ghost Value = { BucketView };

    ghost view = { λ bucket. bucket_of (arc_value bucket.plan) bucket.number };

    ghost invariant = { λ bucket.
        AreRowsByPlace (joined_partitions (planned_rows bucket.number (arc_value bucket.plan)))
        × HasWidth (arc_value bucket.plan).what };
}

impl Bucket {
    /// The bucket of the partition of this number.
    pub fn of(number: u32, plan: Arc<Plan, Global>) -> Bucket
        requires rows { AreRowsByPlace (joined_partitions (planned_rows number (arc_value plan))) }
        requires width { HasWidth (arc_value plan).what }
        ensures { result ≡ bucket_of (arc_value plan) number }
    {
        Bucket { number, plan }
    }

    /// Its partition in each morsel that has rows there, in the order of the file.
    pub fn partitions(&self, alloc: Global) -> Result<Vec<&Partition>, OutOfMemory>
        ensures rows { IfOk result (λ partitions.
            rows_of_partitions partitions.items ≡ joined_partitions self.now.rows) }
        ensures by_place { IfOk result (λ partitions. AreRowsByPlace (rows_of_partitions partitions.items)) }
    {
        filled_partitions(alloc, self.number, self.plan.rows.as_slice())
    }

    /// The breaks of the whole day.
    pub fn breaks(&self) -> &Breaks
        ensures { result.now ≡ self.now.breaks }
    {
        &self.plan.breaks
    }

    /// Which sales are asked for.
    pub fn selection(&self) -> &Selection
        ensures { result.now ≡ self.now.selection }
    {
        &self.plan.selection
    }

    /// What is listed of them.
    pub fn what(&self) -> What
        ensures what { result ≡ self.now.what }
        ensures width { HasWidth result }
    {
        self.plan.what
    }
}

impl PartialEq for Bucket {
    ghost eq = { is_same_bucket };

    ghost laws = { partial_equiv_from_equiv bucket_equiv };

    #[tactic(auto, unfolding(crate::specs::SameQuestions::is_same_selection))]
    fn eq(&self, other: &Bucket) -> bool {
        self.number == other.number
            && same_rows(self.number, &self.plan.rows, &other.plan.rows)
            && self.plan.breaks == other.plan.breaks
            && self.plan.selection == other.plan.selection
            && self.plan.what == other.plan.what
    }
}

impl Eq for Bucket {
    ghost laws = { bucket_equiv };
}
