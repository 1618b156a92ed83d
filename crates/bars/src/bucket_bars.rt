//! Bars that are only to be joined and written: kept as what they need of their sales.
ghost use Rattle.std.specs.Prelude.{◌≡◌, ◌<◌, ◌≤◌, All, IfOk, List, length, map};
ghost use Rattle.row_types.specs.declared.trade.Sale.{Sale as TheSale};
ghost use Rattle.time_and_sales.specs.Lent.{AreApart};
ghost use Rattle.bar.specs.OneBar.{IsTraded};
ghost use Rattle.bars.specs.Bars.{AreBarsOf};
ghost use Rattle.bars.specs.Steps.{AreKept, AreTicksOf, bars_of, sale_of_tick};

use crate::OutOfMemory;
use crate::bar_table::BarTable;
use crate::tick::{Tick, put_ticks_in_order, sales_of};
use crate::tick_list::TickList;
use base::limits::{SECONDS_OF_DAY, TIME_LIMIT, TRADE_LIMIT};
use std::alloc::Global;
use std::marker::Model;

/// The bars of some sales, kept as the ticks of these: where the sales of one key are in many tables, each has nearly a
/// bar a sale, and a tick has a quarter of the bytes of a bar.
#[derive(Drop)]
pub struct BucketBars {
    /// In order of their locates.
    ticks: Vec<Tick>,
    /// Of the bars, in seconds.
    width: u32,
}

impl Model for BucketBars {
    ghost use Rattle.std.specs.Prelude.{List, map};
    ghost use Rattle.bar.specs.declared.bar.Bar.{Bar as TheBar};
    ghost use Rattle.bars.specs.Steps.{AreKept, bars_of, sale_of_tick};

    ghost Value = { List TheBar };

    ghost view = { λ bars. bars_of bars.width (map sale_of_tick bars.ticks.items) };

    ghost invariant = { λ bars. AreKept bars.width bars.ticks.items };
}

impl BucketBars {
    /// The bars of sales of which these are the ticks, at a width in seconds. The ticks take no more memory than they
    /// need.
    pub fn of_ticks(ticks: TickList, width: u32) -> BucketBars
        requires sales { (sales : List TheSale) × AreTicksOf sales ticks
            × AreApart sales × (length sales < TRADE_LIMIT) }
        requires width { (1 ≤ width) × (width ≤ SECONDS_OF_DAY) }
        ensures bars { (sales : List TheSale) → AreTicksOf sales ticks → AreBarsOf width sales result }
        ensures traded { All IsTraded result }
    {
        let mut ticks = ticks.into_items();
        ticks.shrink_to_fit();
        put_ticks_in_order(&mut ticks);
        BucketBars { ticks, width }
    }

    /// The ticks, in order of their locates, and the width of the bars in seconds.
    #[inline]
    #[tactic(auto, using(crate::proofs::Ticks::kept_traded, crate::proofs::Ticks::kept_start))]
    pub fn ticks(&self) -> (&[Tick], u32)
        ensures value { self.now ≡ bars_of result.1 (map sale_of_tick result.0.now) }
        ensures kept { AreKept result.1 result.0.now }
        ensures traded { All IsTraded self.now }
        ensures starts { All (λ bar. bar.start < TIME_LIMIT) self.now }
    {
        (self.ticks.as_slice(), self.width)
    }

    /// The bars, made. It is refused if there is no memory for them, or for the sales that are sorted.
    #[tactic(auto, using(crate::proofs::BarsOfSales::table_is))]
    pub fn table(&self, alloc: Global) -> Result<BarTable, OutOfMemory>
        ensures { IfOk result (λ table. table ≡ self.now) }
    {
        let sales = sales_of(alloc, self.ticks.as_slice())?;
        BarTable::of_vec(alloc, sales, self.width)
    }
}
