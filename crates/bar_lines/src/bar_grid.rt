//! Bars in the slots of a grid, to which more are joined in whatever order they come.
ghost use Rattle.std.specs.Prelude.{◌≡◌, ◌++◌, ◌∷◌, [], All, Contains, IfOk, IfSome, List, map, true};
ghost use Rattle.std.specs.declared.cmp.Ordering.TheVariants.{Equal};
ghost use Rattle.time_and_sales.specs.Names.{names_by};
ghost use Rattle.bar.specs.OneBar.{CanJoin, key_cmp};
ghost use Rattle.bars.specs.Bars.{AllSumsFit, IsUnionOf};
ghost use Rattle.bars.specs.Steps.{bar_at};
ghost use Rattle.bars.specs.Texts.{IsWritable, lines_text};
ghost use Rattle.bar.specs.declared.bar.Bar.{Bar as TheBar};

use crate::gathered::bar_at;
use crate::grid::Grid;
use crate::joined_lines::{USUAL_LINE, next_name};
use bar::Bar;
use bars::{Tick, write_bar};
use base::OutOfMemory;
use std::alloc::Global;
use std::marker::Model;
use time_and_sales::Names;

/// Bars of different slots of a grid. To contracts it is their list, in order of the slots, and so of the keys.
#[derive(Drop)]
pub(crate) struct BarGrid {
    grid: Grid,
    /// For each slot the number of its bar.
    slots: Vec<Option<u16>>,
    /// In the order in which their slots were first met.
    bars: Vec<Bar>,
}

impl Model for BarGrid {
    ghost use Rattle.std.specs.Prelude.{List};
    ghost use Rattle.bar.specs.declared.bar.Bar.{Bar as TheBar};
    ghost use Rattle.bar_lines.specs.Grids.{AreInSlots, bars_in};

    ghost Value = { List TheBar };

    ghost view = { λ grid. bars_in grid.bars.items grid.slots.items };

    ghost invariant = { λ grid. AreInSlots grid.grid grid.bars.items grid.slots.items };
}

impl BarGrid {
    /// The bars of gathered ticks, joined, if each key has a slot of its own.
    pub(crate) fn of(
        alloc: Global,
        ticks: &[Tick],
        grid: Grid,
        slots: usize,
    ) -> Result<Option<BarGrid>, OutOfMemory>
        requires { AllSumsFit (map bar_at ticks.now) }
        ensures { IfOk result (λ made. IfSome made (λ bars. IsUnionOf (map bar_at ticks.now) bars)) }
    {
        let mut bars = BarGrid::empty(alloc, grid, slots, ticks.len())?;
        for i in 0..ticks.len() {
            if !bars.add(&bar_at(&ticks[i]))? {
                return Ok(None);
            }
        }
        Ok(Some(bars))
    }

    /// No bars, in a grid of `slots` slots, and room for as many bars as there are slots or ticks.
    fn empty(alloc: Global, grid: Grid, slots: usize, ticks: usize) -> Result<BarGrid, OutOfMemory>
        ensures { IfOk result (λ bars. bars ≡ []) }
    {
        let mut numbers = Vec::with_capacity(alloc, slots)?;
        numbers.resize(slots, None)?;
        Ok(BarGrid {
            grid,
            slots: numbers,
            bars: Vec::with_capacity(alloc, ticks.min(slots))?,
        })
    }

    /// Puts in a bar, or joins it to the one of its key. It says `false` if the grid has no slot for it alone.
    #[inline]
    fn add(&mut self, bar: &Bar) -> Result<bool, OutOfMemory>
        requires { (kept : TheBar) → Contains self.old kept → key_cmp kept bar.now ≡ Equal → CanJoin kept bar.now }
        ensures { IfOk result (λ added. added ≡ true → IsUnionOf (self.old ++ bar.now ∷ []) self.new) }
    {
        let Some(slot) = self.grid.slot(bar) else {
            return Ok(false);
        };
        match self.slots.get(slot) {
            None => Ok(false),
            Some(Some(number)) => {
                let number = usize::from(*number);
                let kept = self.bars[number];
                if !kept.has_key_of(bar) {
                    return Ok(false);
                }
                self.bars[number] = kept.join(bar);
                Ok(true)
            }
            Some(None) => {
                let Ok(number) = u16::try_from(self.bars.len()) else {
                    return Ok(false);
                };
                self.bars.push(*bar)?;
                self.slots[slot] = Some(number);
                Ok(true)
            }
        }
    }

    /// The lines of the bars, each under the name of its locate.
    pub(crate) fn lines(&self, alloc: Global, names: &Names) -> Result<Vec<u8>, OutOfMemory>
        requires { All IsWritable self.now }
        ensures { IfOk result (λ text. text.items ≡ lines_text (names_by names.now) self.now) }
    {
        let mut text = Vec::with_capacity(alloc, self.bars.len().saturating_mul(USUAL_LINE))?;
        let mut locate = self.grid.locate;
        let mut name = names.name(locate);
        let slots = self.slots.as_slice();
        for slot in slots {
            if let Some(number) = slot {
                let bar = &self.bars[usize::from(*number)];
                name = next_name(names, name, locate, bar.locate);
                locate = bar.locate;
                write_bar(&mut text, bar, &name)?;
            }
        }
        Ok(text)
    }
}
