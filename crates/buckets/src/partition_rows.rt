//! The rows of one partition in all morsels.
ghost use Rattle.std.specs.Prelude.{◌≡◌, IfOk};
ghost use Rattle.std.specs.Cmp.Lexicographic.{pointwise};
ghost use Rattle.morsel_rows.specs.Partitions.{joined_partitions, partition_at};
ghost use Rattle.morsel_rows.specs.SameRows.{is_same_partition};
ghost use Rattle.buckets.specs.BucketRows.{rows_at, rows_of_partitions};

use crate::OutOfMemory;
use morsel_rows::{MorselRows, Partition};
use std::alloc::Global;
use std::sync::Arc;

/// The partition of this number of each morsel that has rows there.
pub(crate) fn filled_partitions<'a>(
    alloc: Global,
    number: u32,
    morsels: &'a [Arc<MorselRows, Global>],
) -> Result<Vec<&'a Partition>, OutOfMemory>
    ensures { IfOk result (λ partitions.
        rows_of_partitions partitions.items ≡ joined_partitions (rows_at number morsels.now)) }
{
    let mut partitions = Vec::with_capacity(alloc, morsels.len())?;
    for morsel in morsels {
        if let Some(partition) = morsel.partition(number) {
            if !partition.is_empty() {
                partitions.push(partition)?;
            }
        }
    }
    Ok(partitions)
}

/// Whether the rows of the partition of this number are the same, morsel by morsel.
pub(crate) fn same_rows(
    number: u32,
    one: &[Arc<MorselRows, Global>],
    other: &[Arc<MorselRows, Global>],
) -> bool
    ensures { result ≡ pointwise is_same_partition (rows_at number one.now) (rows_at number other.now) }
{
    if one.len() != other.len() {
        return false;
    }
    for i in 0..one.len() {
        if !same_partition(number, &one[i], &other[i]) {
            return false;
        }
    }
    true
}

/// Whether a partition of two morsels has the same rows. A morsel that has none of its number has no rows there.
#[tactic(auto, using(crate::proofs::RowsOfPartitions::rows_of_one))]
fn same_partition(number: u32, one: &MorselRows, other: &MorselRows) -> bool
    ensures { result ≡ is_same_partition (partition_at number one.now) (partition_at number other.now) }
{
    match (one.partition(number), other.partition(number)) {
        (Some(one), Some(other)) => *one == *other,
        (Some(one), None) => one.is_empty(),
        (None, Some(other)) => other.is_empty(),
        (None, None) => true,
    }
}
