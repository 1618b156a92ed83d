//! What takes in sales.
ghost use Rattle.std.specs.Prelude.{◌≡◌, ◌<◌, ◌++◌, All, List, OnOk};
ghost use Rattle.row_types.specs.declared.trade.Sale.{Sale as TheSale};
ghost use Rattle.bars.specs.Steps.{AreTicksOf};
ghost use Rattle.morsel_rows.specs.Partitions.{FitSixBytes};

use crate::OutOfMemory;
use bars::TickList;
use probe::Sale;

/// What takes in sales, some at a time.
pub(crate) trait TakesSales {
    // It took in these sales.
    ghost Has: { List TheSale → Self → Type 0 };

    /// Takes room for this many sales more. It is refused if there is no memory for them.
    fn reserve(&mut self, sales: usize) -> Result<(), OutOfMemory>
        ensures { (before : List TheSale) → Has before self.old → Has before self.new };

    /// Takes in sales, each of some shares, whose times and places fit six bytes, behind those that it has. It is
    /// refused if there is no memory for them.
    fn take(&mut self, sales: &[Sale]) -> Result<(), OutOfMemory>
        requires shares { All (λ sale. 0 < sale.shares) sales.now }
        requires fit { All (λ sale. FitSixBytes sale.time sale.place) sales.now }
        ensures { OnOk result ((before : List TheSale) → Has before self.old → Has (before ++ sales.now) self.new) };
}

impl TakesSales for Vec<Sale> {
    ghost Has = { λ sales list. list.items ≡ sales };

    fn reserve(&mut self, sales: usize) -> Result<(), OutOfMemory> {
        self.reserve_exact(sales)
    }

    fn take(&mut self, sales: &[Sale]) -> Result<(), OutOfMemory> {
        self.extend_from_slice(sales)
    }
}

impl TakesSales for TickList {
    ghost Has = { AreTicksOf };

    fn reserve(&mut self, sales: usize) -> Result<(), OutOfMemory> {
        TickList::reserve(self, sales)
    }

    fn take(&mut self, sales: &[Sale]) -> Result<(), OutOfMemory> {
        self.take_in(sales)
    }
}
