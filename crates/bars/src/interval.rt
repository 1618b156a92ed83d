//! The interval that a sale lies in, and the bar of one sale.
ghost use Rattle.std.specs.Prelude.{◌≡◌, ◌<◌};
ghost use Rattle.bar.specs.OneBar.{IsTraded, interval_start};
ghost use Rattle.bars.specs.Steps.{bar_of_one};

use bar::Bar;
use base::limits::NANOSECONDS;
use row_types::Sale;

/// The start of the interval that a time lies in, both in nanoseconds, at a width in seconds.
#[inline]
fn interval_start(time: u64, width: u32) -> u64
    requires { 0 < width }
    ensures { result ≡ interval_start width time }
{
    let interval = u64::from(width) * NANOSECONDS;
    time / interval * interval
}

/// The bar of one sale, at a width in seconds.
#[inline]
pub(crate) fn bar_of_sale(sale: &Sale, width: u32) -> Bar
    requires width { 0 < width }
    requires shares { 0 < sale.now.shares }
    ensures value { result ≡ bar_of_one width sale.now }
    ensures traded { IsTraded result }
{
    Bar::of_one(sale, sale.locate, interval_start(sale.time, width))
}
