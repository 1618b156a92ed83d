//! A grid of locates and intervals, in which each of them has a slot.
ghost use Rattle.std.specs.Prelude.{IfSome};
ghost use Rattle.bar_lines.specs.Grids.{IsIn};

use crate::gathered::key_at;
use bar::Bar;
use bars::Tick;
use base::limits::NANOSECONDS;

/// How many slots a grid has at most. A list of them then takes a mebibyte at most.
const MOST_SLOTS: u64 = 262_144;

/// How many slots it has at most for each tick. With more, to look at all slots soon takes as long as to sort.
const SLOTS_A_TICK: u64 = 32;

/// A row of slots for each locate, and in it one for each interval. The slot of a bar depends on its locate and its
/// start alone, and of two bars the one with the greater slot has the greater key. That bars of different keys have
/// different slots is what makes it useful, and isn't promised.
#[derive(Clone, Copy)]
pub(crate) struct Grid {
    /// Of the first row.
    pub(crate) locate: u16,
    /// Of the first slot of each row, in nanoseconds since midnight.
    pub(crate) start: u64,
    /// How many slots a row has.
    pub(crate) columns: u32,
    /// How many slots there are to a nanosecond, with 64 bits behind the point.
    pub(crate) scale: u64,
}

/// The least and the greatest locate and start.
#[derive(Clone, Copy)]
struct Extent {
    low: u16,
    high: u16,
    first: u64,
    last: u64,
}

impl Extent {
    /// Of the bars of gathered ticks.
    fn of(ticks: &[Tick]) -> Option<Extent> {
        let (locate, start) = key_at(ticks.first()?);
        let mut extent = Extent {
            low: locate,
            high: locate,
            first: start,
            last: start,
        };
        for tick in ticks {
            let (locate, start) = key_at(tick);
            extent = Extent {
                low: extent.low.min(locate),
                high: extent.high.max(locate),
                first: extent.first.min(start),
                last: extent.last.max(start),
            };
        }
        Some(extent)
    }
}

impl Grid {
    /// A grid for the bars of gathered ticks, and how many slots it has, unless they would be too many. The width is
    /// that of the bars, in seconds: where some have another one, their slots may not do.
    pub(crate) fn of(ticks: &[Tick], width: u32) -> Option<(Grid, usize)> {
        let extent = Extent::of(ticks)?;
        let interval = u64::from(width.max(1)) * NANOSECONDS;
        let rows = u64::from(extent.high.saturating_sub(extent.low)) + 1;
        let columns = extent.last.saturating_sub(extent.first) / interval + 1;
        let slots = rows.saturating_mul(columns);
        if MOST_SLOTS.min(SLOTS_A_TICK.saturating_mul(ticks.len() as u64)) < slots {
            return None;
        }
        let grid = Grid {
            locate: extent.low,
            start: extent.first,
            columns: u32::try_from(columns).ok()?,
            scale: u64::MAX / interval + 1,
        };
        Some((grid, usize::try_from(slots).ok()?))
    }

    /// The slot of a bar, if the grid has one for it.
    #[inline(always)]
    pub(crate) fn slot(self, bar: &Bar) -> Option<usize>
        ensures { IfSome result (λ slot. IsIn self bar.now slot) }
    {
        let behind = bar.start.saturating_sub(self.start);
        let column = ((u128::from(behind) * u128::from(self.scale)) >> 64) as u64;
        if bar.locate < self.locate || u64::from(self.columns) <= column {
            return None;
        }
        let row = u64::from(bar.locate - self.locate);
        Some((row * u64::from(self.columns) + column) as usize)
    }
}
