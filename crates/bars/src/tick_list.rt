//! Ticks of the sales that are taken in.
ghost use Rattle.std.specs.Prelude.{◌≡◌, ◌+◌, ◌<◌, ◌≤◌, ◌++◌, [], All, List, OnErr, OnOk, length, map};
ghost use Rattle.std.specs.Prelude.{vec_capacity, vec_len};
ghost use Rattle.row_types.specs.declared.trade.Sale.{Sale as TheSale};
ghost use Rattle.bars.specs.Steps.{AreTicksOf, AreTraded, HasTick, in_seconds, sale_of_tick};

use crate::OutOfMemory;
use crate::tick::Tick;
use row_types::Sale;
use std::alloc::Global;
use std::marker::Model;

/// The ticks of sales. Contracts see the sales in whole seconds.
#[derive(Drop)]
pub struct TickList {
    items: Vec<Tick>,
}

impl Model for TickList {
    ghost use Rattle.std.specs.Prelude.{List, map};
    ghost use Rattle.row_types.specs.declared.trade.Sale.{Sale as TheSale};
    ghost use Rattle.bars.specs.Steps.{AreTraded, sale_of_tick};

    ghost Value = { List TheSale };

    ghost view = { λ ticks. map sale_of_tick ticks.items.items };

    ghost invariant = { λ ticks. AreTraded ticks.items.items };
}

impl TickList {
    /// Those of no sales. It takes no memory.
    pub fn new(alloc: Global) -> Self
        ensures { AreTicksOf [] result }
    {
        TickList {
            items: Vec::new(alloc),
        }
    }

    /// Takes room for those of this many sales more. It is refused if there is no memory for them.
    pub fn reserve(&mut self, sales: usize) -> Result<(), OutOfMemory>
        ensures { self.new ≡ self.old }
    {
        self.items.reserve_exact(sales)
    }

    /// Takes sales in, each of some shares. If there is no memory for their ticks, the list stays as it was.
    pub fn take_in(&mut self, sales: &[Sale]) -> Result<(), OutOfMemory>
        requires shares { All (λ sale. 0 < sale.shares) sales.now }
        requires fit { All HasTick sales.now }
        ensures taken { OnOk result ((before : List TheSale) → AreTicksOf before self.old
            → AreTicksOf (before ++ sales.now) self.new) }
        ensures unchanged { OnErr result (self.new ≡ self.old) }
    {
        self.items.reserve(sales.len())?;
        append_ticks_of(&mut self.items, sales);
        Ok(())
    }

    /// The ticks.
    pub(crate) fn into_items(self) -> Vec<Tick>
        ensures items { self ≡ map sale_of_tick result.items }
        ensures traded { AreTraded result.items }
    {
        let TickList { items } = self;
        items
    }
}

/// Appends the ticks of the sales, in room that was taken for them.
fn append_ticks_of(ticks: &mut Vec<Tick>, sales: &[Sale])
    requires shares { All (λ sale. 0 < sale.shares) sales.now }
    requires fit { All HasTick sales.now }
    requires room { vec_len ticks.old + length sales.now ≤ vec_capacity ticks.old }
    ensures ticks { map sale_of_tick ticks.new.items ≡ map sale_of_tick ticks.old.items ++ map in_seconds sales.now }
    ensures traded { AreTraded ticks.old.items → AreTraded ticks.new.items }
{
    for sale in sales {
        ticks.push_reserved(Tick::of(*sale));
    }
}
