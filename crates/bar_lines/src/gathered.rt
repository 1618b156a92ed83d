//! Ticks as they are gathered: the second of each is the one in which the interval of its bar starts.
ghost use Rattle.std.specs.Prelude.{◌≡◌, ◌<◌, ◌++◌, All, OnOk, filter, map};
ghost use Rattle.time_and_sales.specs.Ranges.{is_in_first};
ghost use Rattle.bars.specs.Steps.{AreJoinedAlike, bar_at, bar_of_tick};
ghost use Rattle.bar_lines.specs.Told.{IsTold};

use bar::Bar;
use bars::{BucketBars, Tick};
use base::OutOfMemory;
use time_and_sales::{Numbered, within};

/// The order of ticks by locate.
pub(crate) struct ByLocate;

impl Numbered<Tick> for ByLocate {
    ghost number_of = { λ tick. tick.locate };

    #[inline]
    fn number(tick: &Tick) -> u64 {
        u64::from(tick.locate)
    }
}

/// The ticks that a table keeps of locates in the first range, and the width of its bars in seconds.
pub(crate) fn ticks_within<'a>(table: &'a BucketBars, bounds: &[u64]) -> (&'a [Tick], u32)
    ensures alike { AreJoinedAlike (map (bar_of_tick result.1) result.0.now)
        (filter (is_in_first (λ bar. bar.locate) bounds.now) table.now) }
    ensures told { All IsTold (map (bar_of_tick result.1) result.0.now) }
    ensures width { 0 < result.1 }
{
    let (ticks, width) = table.ticks();
    (within::<ByLocate, _>(ticks, bounds), width)
}

/// Appends each of the ticks, at the start of its bar at a width in seconds.
pub(crate) fn append_ticks(
    gathered: &mut Vec<Tick>,
    ticks: &[Tick],
    width: u32,
) -> Result<(), OutOfMemory>
    requires { 0 < width }
    ensures { OnOk result
        (map bar_at gathered.new.items ≡ map bar_at gathered.old.items ++ map (bar_of_tick width) ticks.now) }
{
    for tick in ticks {
        gathered.push(tick.at_start(width))?;
    }
    Ok(())
}

/// The locate and the start of the bar of a tick that stands at its start.
#[inline]
pub(crate) fn key_at(tick: &Tick) -> (u16, u64)
    ensures { result ≡ ((bar_at tick.now).locate, (bar_at tick.now).start) }
{
    let sale = tick.sale();
    (sale.locate, sale.time)
}

/// The bar of a tick that stands at its start.
#[inline]
pub(crate) fn bar_at(tick: &Tick) -> Bar
    ensures { result ≡ bar_at tick.now }
{
    let sale = tick.sale();
    Bar::of_one(&sale, sale.locate, sale.time)
}

/// How many keys there are in order of the keys, for room for a line each.
pub(crate) fn count_keys(sorted: &[Tick]) -> usize {
    let mut count = 0usize;
    for i in 0..sorted.len() {
        if i == 0 || key_at(&sorted[i - 1]) != key_at(&sorted[i]) {
            count = count.saturating_add(1);
        }
    }
    count
}
