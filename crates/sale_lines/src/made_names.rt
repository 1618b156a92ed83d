//! The names of many locates, each made once.
ghost use Rattle.std.specs.Prelude.{◌≡◌, ℕ, ◌<◌, ◌++◌, IfOk, List, OnOk, length, slice_index_or};
ghost use Rattle.base.specs.declared.limits.TheConstants.{TIME_LIMIT};
ghost use Rattle.time_and_sales.specs.Names.{names_by};
ghost use Rattle.time_and_sales.specs.Texts.{sale_line};

use base::OutOfMemory;
use row_types::Sale;
use std::alloc::Global;
use time_and_sales::{Name, Names, write_sale};

/// The names of the locates up to the greatest that has a row, by locate, but of `most` at most.
pub(crate) fn made_names(
    alloc: Global,
    names: &Names,
    most: usize,
) -> Result<Vec<Name>, OutOfMemory>
    ensures { IfOk result (λ made. (locate : ℕ) (other : List ℕ) → locate < length made.items →
        slice_index_or made.items locate other ≡ names_by names.now locate) }
{
    let limit = most.min(names.limit() as usize);
    let mut made = Vec::with_capacity(alloc, limit)?;
    for locate in 0..limit {
        made.push(names.name(locate as u16))?;
    }
    Ok(made)
}

/// Appends the line of a sale. The name of its locate is looked up only if it isn't among those made.
#[inline]
pub(crate) fn write_named(
    text: &mut Vec<u8>,
    sale: &Sale,
    made: &[Name],
    names: &Names,
) -> Result<(), OutOfMemory>
    requires time { sale.now.time < TIME_LIMIT }
    requires made { (locate : ℕ) (other : List ℕ) → locate < length made.now →
        slice_index_or made.now locate other ≡ names_by names.now locate }
    ensures { OnOk result (text.new.items ≡ text.old.items
        ++ sale_line sale.now (names_by names.now sale.now.locate)) }
{
    match made.get(usize::from(sale.locate)) {
        Some(name) => write_sale(text, sale, name),
        None => write_sale(text, sale, &names.name(sale.locate)),
    }
}
