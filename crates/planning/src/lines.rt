//! The lines of sales or of bars, in parts.
ghost use Rattle.std.specs.Prelude.{◌≡◌};

use crate::OutOfMemory;
use bar_lines::{AllBars, BarLines};
use sale_lines::{AllSales, SaleLines};
use sinks::{Parts, Sink, WriteFailed};
use std::alloc::Global;

/// The lines of all listings or of all tables, in parts. J names the sales and the bars.
#[derive(Drop)]
pub(crate) enum Lines<'a, J: AllSales + AllBars> {
    OfSales(SaleLines<'a, J>),
    OfBars(BarLines<'a, J>),
}

impl<'a, J: AllSales + AllBars> Parts for Lines<'a, J> {
    ghost use Rattle.planning.specs.Lines.{texts_of};

    ghost texts = { texts_of };

    fn count(&self) -> usize {
        match self {
            Lines::OfSales(lines) => lines.count(),
            Lines::OfBars(lines) => lines.count(),
        }
    }

    fn make(&self, alloc: Global, part: usize) -> Result<Vec<u8>, OutOfMemory> {
        match self {
            Lines::OfSales(lines) => lines.make(alloc, part),
            Lines::OfBars(lines) => lines.make(alloc, part),
        }
    }

    fn put<K: Sink>(&self, part: usize, sink: &mut K) -> Result<u64, WriteFailed> {
        match self {
            Lines::OfSales(lines) => lines.put(part, sink),
            Lines::OfBars(lines) => lines.put(part, sink),
        }
    }
}
