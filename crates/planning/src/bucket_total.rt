//! What is found in one bucket, and in all.
ghost use Rattle.std.specs.Prelude.{◌≡◌, map};
ghost use Rattle.std.specs.Arc.{arc_value};
ghost use Rattle.buckets.specs.FoundRows.{FoundView, TotalView};

use buckets::Product;
use order_table::Repeated;
use probe::Unknown;
use std::alloc::Global;
use std::marker::Model;
use std::sync::Arc;

/// What is found in a bucket: its first faults, and what is listed of its sales, which totals share.
#[derive(Drop)]
pub struct Found {
    pub(crate) repeated: Option<Repeated>,
    pub(crate) unknown: Option<Unknown>,
    pub(crate) product: Arc<Product, Global>,
}

impl Model for Found {
    ghost Value = { FoundView };

    ghost view = { λ found. record {
      repeated = found.repeated;
      unknown = found.unknown;
      product = arc_value found.product;
    } };
}

/// What is found in buckets: their first faults, and what is listed of each.
#[derive(Drop)]
pub struct BucketTotal {
    pub(crate) repeated: Option<Repeated>,
    pub(crate) unknown: Option<Unknown>,
    pub(crate) products: Vec<Arc<Product, Global>>,
}

impl Model for BucketTotal {
    ghost Value = { TotalView };

    ghost view = { λ total. record {
      repeated = total.repeated;
      unknown = total.unknown;
      products = map arc_value total.products.items;
    } };
}

impl BucketTotal {
    /// Of all order rows that repeat a reference, the first of the day.
    pub(crate) fn repeated(&self) -> Option<Repeated>
        ensures { result ≡ self.now.repeated }
    {
        self.repeated
    }

    /// Of all executions whose reference nothing before them gives, the first of the day.
    pub(crate) fn unknown(&self) -> Option<Unknown>
        ensures { result ≡ self.now.unknown }
    {
        self.unknown
    }

    /// What is listed of each bucket, in the order of their numbers.
    pub fn products(&self) -> &[Arc<Product, Global>]
        ensures { map arc_value result.now ≡ self.now.products }
    {
        self.products.as_slice()
    }
}
