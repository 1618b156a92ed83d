//! The lines of the bars of many tables, in parts that are made with memory or written without.
ghost use Rattle.std.specs.Prelude.{◌≡◌, ◌<◌, ◌^◌, IfOk, drop, flat_map, length};
ghost use Rattle.base.specs.declared.limits.TheConstants.{TRADE_LIMIT};
ghost use Rattle.time_and_sales.specs.Lent.{lent};
ghost use Rattle.time_and_sales.specs.Names.{names_by};
ghost use Rattle.bars.specs.Bars.{FitIfTraded, IsUnionOf, all_bars};
ghost use Rattle.bars.specs.Texts.{lines_text};

use crate::bars_in_ranges::{count_ranges, numbers_of_ranges, range_lines};
use crate::lines_one_by_one::put_lines;
use bars::BucketBars;
use base::OutOfMemory;
use sinks::{Parts, Sink, WriteFailed};
use std::alloc::Global;
use std::marker::{Brand, Model, PhantomData};
use time_and_sales::{Names, bounds_of};

/// The most ranges that there are.
const MOST_RANGES: u32 = (1 << 24) - 1;

/// A name for the list of all bars, those of one locate and start joined. It is there for proofs alone: the proof of
/// a call picks the list, so that the parts of a `BarLines` have one meaning wherever they are made.
pub trait AllBars {
    ghost use Rattle.std.specs.Prelude.{List};
    ghost use Rattle.bar.specs.declared.bar.Bar.{Bar as TheBar};

    ghost bars: { List TheBar };
}

impl AllBars for Brand {
    ghost use Rattle.std.specs.Prelude.{[]};

    ghost bars = { [] };
}

/// The lines of the bars of many tables, those of one locate and start joined, in parts: each has those of a range of
/// locates. Contracts see the texts of the parts. All that making or writing a part asks of the tables is in the type,
/// so that any thread can do it.
#[derive(Drop)]
pub struct BarLines<'a, J: AllBars> {
    tables: &'a [&'a BucketBars],
    names: &'a Names,
    /// The least locate of each range.
    bounds: Vec<u64>,
    list: PhantomData<J>,
}

impl<'a, J: AllBars> Model for BarLines<'a, J> {
    ghost use Rattle.std.specs.Prelude.{ℕ, ◌<◌, ◌^◌, All, List, length};
    ghost use Rattle.base.specs.declared.limits.TheConstants.{TIME_LIMIT, TRADE_LIMIT};
    ghost use Rattle.time_and_sales.specs.Lent.{lent};
    ghost use Rattle.time_and_sales.specs.Names.{names_by};
    ghost use Rattle.bar.specs.OneBar.{IsTraded};
    ghost use Rattle.bars.specs.Bars.{AllSumsFit, IsUnionOf, all_bars};
    ghost use Rattle.bar_lines.specs.BarParts.{range_texts};

    ghost Value = { List (List ℕ) };

    ghost view = { λ lines. range_texts (names_by lines.names.now) J.bars lines.bounds.items };

    ghost invariant = { λ lines. IsUnionOf (all_bars (lent lines.tables.now)) J.bars
        × All IsTraded (all_bars (lent lines.tables.now))
        × AllSumsFit (all_bars (lent lines.tables.now))
        × All (λ bar. bar.start < TIME_LIMIT) (all_bars (lent lines.tables.now))
        × (length J.bars < TRADE_LIMIT)
        × (length lines.bounds.items < 2 ^ 24) };
}

impl<'a, J: AllBars> BarLines<'a, J> {
    /// Those of all tables, in as many ranges as is best for `threads` threads. It is refused if there is no memory for
    /// the bounds of the ranges.
    pub fn new(
        alloc: Global,
        tables: &'a [&'a BucketBars],
        names: &'a Names,
        threads: u32,
    ) -> Result<Self, OutOfMemory>
        requires union { IsUnionOf (all_bars (lent tables.now)) J.bars }
        requires sums { FitIfTraded (all_bars (lent tables.now)) }
        requires few { length J.bars < TRADE_LIMIT }
        ensures { IfOk result (λ lines.
            flat_map (λ text. text) lines ≡ lines_text (names_by names.now) J.bars) }
    {
        let ranges = count_ranges(tables, threads).min(MOST_RANGES);
        let numbers = numbers_of_ranges(alloc, tables, ranges)?;
        let bounds = bounds_of(alloc, numbers.as_slice())?;
        Ok(BarLines {
            tables,
            names,
            bounds,
            list: PhantomData,
        })
    }
}

impl<'a, J: AllBars + Sync> Parts for BarLines<'a, J> {
    ghost texts = { λ lines. lines };

    fn count(&self) -> usize {
        self.bounds.len()
    }

    fn make(&self, alloc: Global, part: usize) -> Result<Vec<u8>, OutOfMemory> {
        let bounds = bounds_from(self.bounds.as_slice(), part);
        range_lines(alloc, self.tables, self.names, bounds)
    }

    fn put<K: Sink>(&self, part: usize, sink: &mut K) -> Result<u64, WriteFailed> {
        let bounds = bounds_from(self.bounds.as_slice(), part);
        put_lines::<J, K>(self.tables, self.names, bounds, sink)
    }
}

/// The bounds of the range of a part, and of those behind it.
fn bounds_from(bounds: &[u64], part: usize) -> &[u64]
    requires { part < length bounds.now }
    ensures { result.now ≡ drop part bounds.now }
{
    &bounds[part..]
}
