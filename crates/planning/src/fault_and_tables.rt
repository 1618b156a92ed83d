//! What all buckets have found: the first fault in the references, and the tables.
ghost use Rattle.std.specs.Prelude.{◌≡◌, IfOk, filter_map, map};
ghost use Rattle.std.specs.Arc.{arc_value};
ghost use Rattle.time_and_sales.specs.Lent.{lent};
ghost use Rattle.planning.specs.AllBuckets.{fault_from, table_of};

use crate::OutOfMemory;
use crate::bucket_total::BucketTotal;
use bars::BucketBars;
use buckets::Product;
use order_table::Repeated;
use outcomes::DayFault;
use probe::Unknown;
use std::alloc::Global;
use std::sync::Arc;

/// The first fault in the references.
pub fn fault_of(total: &BucketTotal) -> Option<DayFault>
    ensures { result ≡ fault_from total.now.repeated total.now.unknown }
{
    match (total.repeated(), total.unknown()) {
        (Some(Repeated { place, order_no }), _) => {
            Some(DayFault::RepeatedReference { place, order_no })
        }
        (None, Some(Unknown { place, order_no })) => {
            Some(DayFault::UnknownReference { place, order_no })
        }
        (None, None) => None,
    }
}

/// The tables among what is listed.
#[tactic(auto, using(std::proofs::lemmas::List::take_all))]
pub fn tables<'a>(
    alloc: Global,
    products: &'a [Arc<Product, Global>],
) -> Result<Vec<&'a BucketBars>, OutOfMemory>
    ensures { IfOk result (λ tables. lent tables.items ≡ filter_map table_of (map arc_value products.now)) }
{
    let mut tables = Vec::with_capacity(alloc, products.len())?;
    for product in products {
        match &**product {
            Product::Tabled(table) => tables.push(table)?,
            Product::Listed(_) => {}
        }
    }
    Ok(tables)
}
