//! The work of buckets.
ghost use Rattle.std.specs.Prelude.{◌≡◌};
ghost use Rattle.std.proofs.Common.{◌∙◌, ap, sym};
ghost use Rattle.base.proofs.Exact.{exact_list};
ghost use Rattle.buckets.specs.Buckets.{AreNumbered, exact_bucket, found, total_found};

use crate::OutOfMemory;
use crate::bucket_total::{BucketTotal, Found};
use base::earlier;
use buckets::{Bucket, find};
use gathering::Work;
use std::alloc::Global;
use std::sync::Arc;

/// Finds the first faults of a bucket, and lists its sales.
#[derive(Drop)]
pub struct BucketWork;

impl Work for BucketWork {
    type Input = Bucket;

    type Output = Found;

    type Total = BucketTotal;

    ghost Gives = { λ input output. output ≡ found input };

    ghost IsTotalOf = { λ inputs total. total ≡ total_found inputs };

    ghost IsAdmissible = { AreNumbered };

    ghost equal_values = { λ a b output same is. is ∙ ap found (exact_bucket.one a b same) };

    ghost equal_totals = { λ xs ys same all is. is ∙ sym (ap total_found ((exact_list exact_bucket).one xs ys same)) };

    fn run(alloc: Global, input: &Bucket) -> Result<Found, OutOfMemory> {
        let (faults, product) = find(alloc, input)?;
        Ok(Found {
            repeated: faults.repeated,
            unknown: faults.unknown,
            product: Arc::new(alloc, product)?,
        })
    }

    fn empty(alloc: Global) -> BucketTotal {
        BucketTotal {
            repeated: None,
            unknown: None,
            products: Vec::new(alloc),
        }
    }

    fn add(total: &mut BucketTotal, output: &Found) -> Result<(), OutOfMemory> {
        let product = Arc::try_clone(&output.product)?;
        total.products.push(product)?;
        total.repeated = earlier(total.repeated, output.repeated, |repeated| repeated.place);
        total.unknown = earlier(total.unknown, output.unknown, |unknown| unknown.place);
        Ok(())
    }
}
