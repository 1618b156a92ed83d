//! Bars that buckets keep as ticks, and their lines in parts.
ghost use Rattle.std.specs.Prelude.{◌<◌, All, IfOk, IsTrue, List, [], ◌∷◌, length};
ghost use Rattle.base.specs.declared.limits.TheConstants.{TRADE_LIMIT};
ghost use Rattle.row_types.specs.declared.trade.Sale.{Sale as TheSale};
ghost use Rattle.time_and_sales.specs.Lent.{AreApart, lent};
ghost use Rattle.bar.specs.OneBar.{IsTraded};
ghost use Rattle.bars.specs.Bars.{AllSumsFit, AreBarsOf, FitIfTraded, IsUnionOf, all_bars};
ghost use Rattle.bars.specs.Steps.{HasTick};

use crate::parts::{Trial, pass};
use crate::rows::{named_row, pass_told};
use bar_lines::{AllBars, BarLines};
use bars::{BarTable, BucketBars, OutOfMemory, Sale, TickList};
use probe::Kind;
use sinks::Parts;
use std::alloc::{AllocError, Global};
use std::marker::Brand;
use std::sync::Wait;
use std::test::Fail;
use std::thread::Threads;
use time_and_sales::Names;

/// A sale: its place, its locate, seconds after half past nine, its price, and its shares, one at least.
type Row = (u32, u16, u8, u32, u64);

/// The sales of a table, but those of the locate 12 are of `last`.
fn sales_of(alloc: Global, rows: &[Row], last: u16) -> Result<Vec<Sale>, OutOfMemory>
    ensures shares { IfOk result (λ sales. All (λ sale. 0 < sale.shares) sales.items) }
    ensures fit { IfOk result (λ sales. All HasTick sales.items) }
{
    let mut sales = Vec::new(alloc);
    for (place, locate, seconds, price, shares) in rows {
        sales.push(Sale {
            place: u64::from(*place),
            time: 34_200_000_000_000 + u64::from(*seconds) * 1_000_000_000,
            locate: if *locate == 12 { last } else { *locate },
            kind: Kind::P,
            price: *price,
            shares: (*shares).max(1),
            trade_no: u64::from(*place),
        })?;
    }
    Ok(sales)
}

/// Whether each sale stands behind those before it.
fn places_rise(sales: &[Sale]) -> bool
    ensures { IsTrue result → AreApart sales.now }
{
    sales.is_sorted_by(|sale, next| sale.place < next.place)
}

/// Sales of a table, if each stands behind those before it.
fn rising_sales(alloc: Global, rows: &[Row], last: u16) -> Result<Vec<Sale>, OutOfMemory>
    ensures places { IfOk result (λ sales. AreApart sales.items) }
    ensures count { IfOk result (λ sales. length sales.items < 100) }
    ensures shares { IfOk result (λ sales. All (λ sale. 0 < sale.shares) sales.items) }
    ensures fit { IfOk result (λ sales. All HasTick sales.items) }
{
    let sales = sales_of(alloc, rows, last)?;
    if sales.len() < 100 && places_rise(sales.as_slice()) {
        Ok(sales)
    } else {
        Err(AllocError)
    }
}

/// The bars of these sales by minutes.
fn minutes(alloc: Global, rows: &[Row], last: u16) -> Result<BucketBars, OutOfMemory>
    ensures bars { IfOk result (λ table. (sales : List TheSale) × AreBarsOf 60 sales table × (length sales < 100)) }
    ensures traded { IfOk result (λ table. All IsTraded table) }
{
    let sales = rising_sales(alloc, rows, last)?;
    let mut ticks = TickList::new(alloc);
    ticks.take_in(sales.as_slice())?;
    Ok(BucketBars::of_ticks(ticks, 60))
}

/// Sales of five bars.
const SALES: [Row; 7] = [
    (10, 7, 1, 20_000, 5),
    (20, 7, 3, 26_000, 5),
    (40, 9, 2, 30_000, 5),
    (50, 8, 4, 40_000, 5),
    (70, 7, 62, 21_000, 5),
    (80, 9, 5, 31_000, 5),
    (81, 12, 6, 10_000, 5),
];

/// Sales of two of these bars. The last one is a cross of more shares than 32 bits hold.
const MORE: [Row; 5] = [
    (5, 7, 10, 15_000, 5),
    (6, 7, 0, 22_000, 5),
    (7, 7, 12, 20_000, 5),
    (200, 7, 20, 26_000, 5),
    (201, 8, 30, 40_003, 8_589_934_592),
];

/// The bars of both.
fn tables(alloc: Global, last: u16) -> Result<(BucketBars, BucketBars), OutOfMemory>
    ensures { IfOk result (λ two. AllSumsFit (all_bars (two.0 ∷ two.1 ∷ []))) }
{
    Ok((minutes(alloc, &SALES, last)?, minutes(alloc, &MORE, last)?))
}

/// The names of three locates.
pub(crate) fn names(alloc: Global) -> Result<Names, OutOfMemory> {
    let rows = [
        named_row(0, 2, b"ZVZZT   "),
        named_row(0, 7, b"MSFT    "),
        named_row(0, 12, b"A       "),
    ];
    Names::build(alloc, &rows)
}

/// Whether the lines of tables are in a part for each thread, and pass a trial. The proof of a call names the bars:
/// they are those of `all`.
fn lines_pass<J: AllBars + Sync, R: Threads + Wait + Sync>(
    rt: &R,
    alloc: Global,
    tables: &[&BucketBars],
    all: &BarTable,
    text: &[u8],
    threads: u32,
    trial: Trial,
) -> Result<bool, OutOfMemory>
    requires union { IsUnionOf (all_bars (lent tables.now)) J.bars }
    requires sums { FitIfTraded (all_bars (lent tables.now)) }
    requires few { length J.bars < TRADE_LIMIT }
{
    let names = names(alloc)?;
    let lines = BarLines::<J>::new(alloc, tables, &names, threads)?;
    let are_even = lines.count() == threads as usize && all.items().len() == 5;
    Ok(are_even && pass(rt, alloc, &lines, text, trial)?)
}

/// The same of the two.
fn both_pass<R: Threads + Wait + Sync>(
    rt: &R,
    alloc: Global,
    last: u16,
    (text, threads): (&str, u32),
    trial: Trial,
) -> Result<bool, OutOfMemory> {
    let (bars, more) = tables(alloc, last)?;
    let all = BarTable::merge_all(alloc, &[&bars.table(alloc)?, &more.table(alloc)?])?;
    if all.items().len() > 5 {
        return Ok(false);
    }
    lines_pass::<Brand, R>(
        rt,
        alloc,
        &[&bars, &more],
        &all,
        text.as_bytes(),
        threads,
        trial,
    )
}

/// The same of each of these numbers of threads.
fn pass_by_each<R: Threads + Wait + Sync>(
    rt: &R,
    alloc: Global,
    (last, text): (u16, &str),
    numbers: &[u32],
    trial: Trial,
) -> Result<bool, OutOfMemory> {
    for threads in numbers {
        if !both_pass(rt, alloc, last, (text, *threads), trial)? {
            return Ok(false);
        }
    }
    Ok(true)
}

/// The lines where the last locate is 12.
const LINES: (u16, &str) = (
    12,
    "header
MSFT,09:30:00,1.5000,2.6000,1.5000,2.6000,30,6,2.1500+0/30
MSFT,09:31:00,2.1000,2.1000,2.1000,2.1000,5,1,2.1000+0/5
#8,09:30:00,4.0000,4.0003,4.0000,4.0003,8589934597,2,4.0002+8589934582/8589934597
#9,09:30:00,3.0000,3.1000,3.0000,3.1000,10,2,3.0500+0/10
A,09:30:00,1.0000,1.0000,1.0000,1.0000,5,1,1.0000+0/5
",
);

#[test]
fn lines_of_bars_in_parts_are_those_of_one_table(rt: HostRuntime) -> Result<(), Fail> {
    pass_told(pass_by_each(&rt, rt.alloc(), LINES, &[1, 2, 3, 5, 100], Trial::Whole))
}

/// The lines where it is far from the others.
const LINES_OF_FAR_LOCATES: (u16, &str) = (
    60_000,
    "header
MSFT,09:30:00,1.5000,2.6000,1.5000,2.6000,30,6,2.1500+0/30
MSFT,09:31:00,2.1000,2.1000,2.1000,2.1000,5,1,2.1000+0/5
#8,09:30:00,4.0000,4.0003,4.0000,4.0003,8589934597,2,4.0002+8589934582/8589934597
#9,09:30:00,3.0000,3.1000,3.0000,3.1000,10,2,3.0500+0/10
#60000,09:30:00,1.0000,1.0000,1.0000,1.0000,5,1,1.0000+0/5
",
);

#[test]
fn lines_of_locates_far_apart_are_those_of_one_table(rt: HostRuntime) -> Result<(), Fail> {
    pass_told(pass_by_each(&rt, rt.alloc(), LINES_OF_FAR_LOCATES, &[1, 3], Trial::Whole))
}

#[test]
fn a_part_of_bars_is_written_slowly_as_it_is_made(rt: HostRuntime) -> Result<(), Fail> {
    pass_told(pass_by_each(&rt, rt.alloc(), LINES, &[1, 2, 3, 5], Trial::Slow))
}

#[test]
fn a_sink_without_room_has_the_first_lines_of_bars(rt: HostRuntime) -> Result<(), Fail> {
    pass_told(pass_by_each(&rt, rt.alloc(), LINES, &[1, 3], Trial::Short))
}

/// Once there are lines, their text is whole, whatever is refused. Run also with each allocation and each thread of the
/// process refused in turn.
#[test]
fn lines_or_want_of_memory(rt: HostRuntime) -> Result<(), Fail> {
    pass_told(pass_by_each(&rt, rt.alloc(), LINES, &[1, 3], Trial::Free))
}
