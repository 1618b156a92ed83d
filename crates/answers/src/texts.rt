//! The texts of a list of sales and of a table of bars.
ghost use Rattle.std.specs.Prelude.{◌≡◌, ◌<◌, All, IfOk};
ghost use Rattle.base.specs.declared.limits.TheConstants.{TIME_LIMIT};
ghost use Rattle.bars.specs.Texts.{IsWritable, bars_text};
ghost use Rattle.time_and_sales.specs.Names.{names_by};
ghost use Rattle.time_and_sales.specs.Texts.{listing_text};

use crate::OutOfMemory;
use crate::text::Text;
use bars::Bar;
use probe::Sale;
use std::alloc::Allocator;
use time_and_sales::Names;

/// The text of time and sales: a header line, then a line for each of these sales, in their order.
#[tactic(auto, using(std::proofs::lemmas::List::take_all))]
pub fn text_of_sales<A: Allocator + Copy>(
    alloc: A,
    sales: &[Sale],
    names: &Names<A>,
) -> Result<Text<A>, OutOfMemory>
    requires { All (λ sale. sale.time < TIME_LIMIT) sales.now }
    ensures { IfOk result (λ text. text ≡ listing_text (names_by names.now) sales.now) }
{
    let mut bytes = Vec::new(alloc);
    time_and_sales::write_header(&mut bytes)?;
    for sale in sales {
        time_and_sales::write_sale(&mut bytes, sale, &names.name(sale.locate))?;
    }
    Ok(Text::of(bytes))
}

/// The text of a table of bars: a header line, then a line for each of these bars, in their order.
#[tactic(auto, using(std::proofs::lemmas::List::take_all))]
pub fn text_of_bars<A: Allocator + Copy>(
    alloc: A,
    table: &[Bar],
    names: &Names<A>,
) -> Result<Text<A>, OutOfMemory>
    requires { All IsWritable table.now }
    ensures { IfOk result (λ text. text ≡ bars_text (names_by names.now) table.now) }
{
    let mut bytes = Vec::new(alloc);
    bars::write_header(&mut bytes)?;
    for bar in table {
        bars::write_bar(&mut bytes, bar, &names.name(bar.locate))?;
    }
    Ok(Text::of(bytes))
}
