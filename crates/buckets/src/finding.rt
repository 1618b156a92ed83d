//! What is found in a bucket.
ghost use Rattle.std.specs.Prelude.{◌≡◌, ◌≤◌, IfOk};
ghost use Rattle.base.specs.declared.limits.TheConstants.{SECONDS_OF_DAY};
ghost use Rattle.bars.specs.Steps.{bars_of};
ghost use Rattle.morsel_rows.specs.Partitions.{AreRowsByPlace, joined_partitions};
ghost use Rattle.buckets.specs.BucketRows.{rows_of_partitions};
ghost use Rattle.buckets.specs.FoundRows.{kept_of, repeated_in, trades_in, unknown_in};
ghost use Rattle.buckets.specs.Products.{product_of};

use crate::OutOfMemory;
use crate::bucket::Bucket;
use crate::product::Product;
use crate::trading::{Faults, trade};
use bars::{BucketBars, TickList};
use meaning::What;
use morsel_rows::Partition;
use probe::Sale;
use std::alloc::Global;
use time_and_sales::Listing;

/// Finds the first faults of a bucket, and lists its sales that are asked for, or makes their bars.
pub fn find(alloc: Global, bucket: &Bucket) -> Result<(Faults, Product), OutOfMemory>
    ensures repeated { IfOk result (λ (faults, _). faults.repeated ≡ repeated_in (joined_partitions bucket.now.rows)) }
    ensures unknown { IfOk result (λ (faults, _). faults.unknown ≡ unknown_in (joined_partitions bucket.now.rows)) }
    ensures product { IfOk result (λ (_, product). product
        ≡ product_of bucket.now.what (kept_of bucket.now (trades_in (joined_partitions bucket.now.rows)))) }
{
    let partitions = bucket.partitions(alloc)?;
    match bucket.what() {
        What::Sales => {
            let (faults, sales) = list_sales(alloc, bucket, partitions.as_slice())?;
            Ok((faults, Product::Listed(Listing::of_sales(sales))))
        }
        What::Bars { width } => {
            let (faults, bars) = make_bars(alloc, bucket, partitions.as_slice(), width)?;
            Ok((faults, Product::Tabled(bars)))
        }
    }
}

/// The first faults of a bucket's partitions, and the sales that are asked for.
fn list_sales(
    alloc: Global,
    bucket: &Bucket,
    partitions: &[&Partition],
) -> Result<(Faults, Vec<Sale>), OutOfMemory>
    requires { AreRowsByPlace (rows_of_partitions partitions.now) }
    ensures repeated { IfOk result (λ (faults, _). faults.repeated ≡ repeated_in (rows_of_partitions partitions.now)) }
    ensures unknown { IfOk result (λ (faults, _). faults.unknown ≡ unknown_in (rows_of_partitions partitions.now)) }
    ensures sales { IfOk result (λ (_, sales). sales.items
        ≡ kept_of bucket.now (trades_in (rows_of_partitions partitions.now))) }
{
    let mut sales = Vec::new(alloc);
    let faults = trade(alloc, bucket, partitions, &mut sales)?;
    sales.shrink_to_fit();
    Ok((faults, sales))
}

/// The first faults of a bucket's partitions, and the bars of the sales that are asked for, at a width in seconds.
fn make_bars(
    alloc: Global,
    bucket: &Bucket,
    partitions: &[&Partition],
    width: u32,
) -> Result<(Faults, BucketBars), OutOfMemory>
    requires rows { AreRowsByPlace (rows_of_partitions partitions.now) }
    requires width { (1 ≤ width) × (width ≤ SECONDS_OF_DAY) }
    ensures repeated { IfOk result (λ (faults, _). faults.repeated ≡ repeated_in (rows_of_partitions partitions.now)) }
    ensures unknown { IfOk result (λ (faults, _). faults.unknown ≡ unknown_in (rows_of_partitions partitions.now)) }
    ensures bars { IfOk result (λ (_, bars). bars
        ≡ bars_of width (kept_of bucket.now (trades_in (rows_of_partitions partitions.now)))) }
{
    let mut ticks = TickList::new(alloc);
    let faults = trade(alloc, bucket, partitions, &mut ticks)?;
    Ok((faults, BucketBars::of_ticks(ticks, width)))
}
