//! Takes away what isn't asked for.
ghost use Rattle.std.specs.Prelude.{◌≡◌};
ghost use Rattle.probe.specs.Selection.{admits};
ghost use Rattle.probe.specs.Selection.{kept};

use crate::selection::Selection;
use broken_trades::Breaks;
use row_types::Sale;
use std::alloc::Allocator;

/// Retains, in their order, the sales of more than zero shares that the selection admits and no
/// break has, wherever the break stood in the file. It takes no memory.
pub fn keep<A: Allocator, B: Allocator, C: Allocator>(
    sales: &mut Vec<Sale, A>,
    breaks: &Breaks<B>,
    selection: &Selection<C>,
)
    ensures { sales.new.items ≡ kept breaks.now (admits selection.now) sales.old.items }
{
    sales.retain(|sale| {
        sale.shares > 0 && selection.admits(sale) && !breaks.holds(sale.trade_no)
    });
}
