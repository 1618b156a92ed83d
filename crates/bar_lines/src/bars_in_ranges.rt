//! The lines of the bars of many tables, of a range of locates.
ghost use Rattle.std.specs.Prelude.{◌≡◌, ◌-◌, ◌≤◌, All, IfOk, List, filter, length, map};
ghost use Rattle.time_and_sales.specs.Ranges.{is_in_first};
ghost use Rattle.time_and_sales.specs.Lent.{lent};
ghost use Rattle.time_and_sales.specs.Names.{names_by};
ghost use Rattle.bars.specs.Bars.{AllSumsFit, IsUnionOf, all_bars};
ghost use Rattle.bars.specs.Steps.{AreJoinedAlike, bar_at};
ghost use Rattle.bars.specs.Texts.{lines_text};
ghost use Rattle.bar_lines.specs.Told.{IsTold};
ghost use Rattle.bar.specs.declared.bar.Bar.{Bar as TheBar};

use crate::bar_grid::BarGrid;
use crate::gathered::{ByLocate, append_ticks, key_at, ticks_within};
use crate::grid::Grid;
use crate::joined_lines::joined_lines;
use bars::{BucketBars, Tick};
use base::OutOfMemory;
use std::alloc::Global;
use time_and_sales::{Names, numbers_of};

/// About how many ticks a range has at most. They then stay in a processor's nearer caches while they are joined, and
/// take little memory.
const LONG_RANGE: usize = 4_096;

/// How many ranges there are best: `threads`, or a multiple of that if they would be long. Each table's type says that
/// its bars are traded and when they start, and all tables are looked at here.
pub(crate) fn count_ranges(tables: &[&BucketBars], threads: u32) -> u32
    ensures { All IsTold (all_bars (lent tables.now)) }
{
    let mut count = 0usize;
    for table in tables {
        count = count.saturating_add(table.ticks().0.len());
    }
    let share = count / threads.max(1) as usize;
    let further = u32::try_from(share / LONG_RANGE).unwrap_or(0);
    threads.saturating_mul(further.saturating_add(1))
}

/// The locates with which the ranges begin, so that of the most ticks as many are in each, without the first.
pub(crate) fn numbers_of_ranges(
    alloc: Global,
    tables: &[&BucketBars],
    ranges: u32,
) -> Result<Vec<u64>, OutOfMemory>
    ensures { IfOk result (λ numbers. length numbers.items ≤ ranges - 1) }
{
    numbers_of::<ByLocate, _>(alloc, longest(tables), ranges)
}

/// The most ticks that a table keeps.
fn longest<'a>(tables: &[&'a BucketBars]) -> &'a [Tick] {
    let mut longest: &'a [Tick] = &[];
    for table in tables {
        let (ticks, _) = table.ticks();
        if ticks.len() > longest.len() {
            longest = ticks;
        }
    }
    longest
}

/// The lines of the bars of all tables whose locates are in the first range.
pub(crate) fn range_lines(
    alloc: Global,
    tables: &[&BucketBars],
    names: &Names,
    bounds: &[u64],
) -> Result<Vec<u8>, OutOfMemory>
    requires { AllSumsFit (all_bars (lent tables.now)) }
    ensures { IfOk result (λ text. (all : List TheBar) →
        IsUnionOf (all_bars (lent tables.now)) all →
        text.items ≡ lines_text (names_by names.now)
        (filter (is_in_first (λ bar. bar.locate) bounds.now) all)) }
{
    let ticks = gathered(alloc, tables, bounds)?;
    lines_of(alloc, ticks, width_of(tables), names)
}

/// The width of the bars in seconds: each table's should be that of the first.
fn width_of(tables: &[&BucketBars]) -> u32 {
    match tables.first() {
        Some(table) => table.ticks().1,
        None => 1,
    }
}

/// The lines of the bars of gathered ticks, those of one key joined: in the slots of a grid, or where that would be too
/// large, one after the other in order of their keys.
fn lines_of(
    alloc: Global,
    mut ticks: Vec<Tick>,
    width: u32,
    names: &Names,
) -> Result<Vec<u8>, OutOfMemory>
    requires told { All IsTold (map bar_at ticks.items) }
    requires sums { AllSumsFit (map bar_at ticks.items) }
    ensures { IfOk result (λ text. (all : List TheBar) → IsUnionOf (map bar_at ticks.items) all →
        text.items ≡ lines_text (names_by names.now) all) }
{
    if let Some((grid, slots)) = Grid::of(ticks.as_slice(), width) {
        if let Some(bars) = BarGrid::of(alloc, ticks.as_slice(), grid, slots)? {
            return bars.lines(alloc, names);
        }
    }
    // The sort is stable: of sales at one place in two tables, the first table's count.
    ticks.sort_by_key(|tick| key_at(tick))?;
    joined_lines(alloc, ticks.as_slice(), names)
}

/// The ticks of all tables of locates in the first range, each at the start of its bar.
fn gathered(alloc: Global, tables: &[&BucketBars], bounds: &[u64]) -> Result<Vec<Tick>, OutOfMemory>
    requires { AllSumsFit (all_bars (lent tables.now)) }
    ensures alike { IfOk result (λ ticks. AreJoinedAlike (map bar_at ticks.items)
        (filter (is_in_first (λ bar. bar.locate) bounds.now) (all_bars (lent tables.now)))) }
    ensures told { IfOk result (λ ticks. All IsTold (map bar_at ticks.items)) }
    ensures sums { IfOk result (λ ticks. AllSumsFit (map bar_at ticks.items)) }
{
    let mut gathered = Vec::with_capacity(alloc, count_within(tables, bounds))?;
    for table in tables {
        let (ticks, width) = ticks_within(table, bounds);
        append_ticks(&mut gathered, ticks, width)?;
    }
    Ok(gathered)
}

/// How many ticks all tables keep of locates in the first range, for room for them.
fn count_within(tables: &[&BucketBars], bounds: &[u64]) -> usize {
    let mut count = 0usize;
    for table in tables {
        count = count.saturating_add(ticks_within(table, bounds).0.len());
    }
    count
}
