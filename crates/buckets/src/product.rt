//! A listing or a table of bars.

use bars::BucketBars;
use time_and_sales::Listing;

/// What a query lists of some sales: a listing, or a table of bars.
#[derive(Drop)]
pub enum Product {
    /// The sales by place.
    Listed(Listing),
    /// Their bars.
    Tabled(BucketBars),
}
