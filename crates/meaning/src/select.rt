//! Which sales a query asks for, once the names of the locates are known.
ghost use Rattle.std.specs.Prelude.{◌≡◌, IfOk, None};
ghost use Rattle.std.specs.Result.{IsOk};
ghost use Rattle.meaning.specs.Selected.{locates_of, selected_locates};
ghost use Rattle.time_and_sales.specs.Names.{names_by};

use crate::OutOfMemory;
use crate::query::Query;
use crate::sorted_symbols::SortedSymbols;
use crate::symbols::Symbols;
use probe::{LocateList, Locates, Selection};
use std::alloc::Allocator;
use time_and_sales::{LOCATES, Names};

/// The selection of a query: the locates, of 0 to 65,535, whose names the query lists, its span and its kinds. If the
/// query lists no symbol, every locate is selected and no memory is taken, so the call succeeds.
pub fn selection<A: Allocator + Clone, B: Allocator, C: Allocator + Clone>(
    alloc: A,
    query: &Query<B>,
    names: &Names<C>,
) -> Result<Selection<A>, OutOfMemory>
    ensures locates { IfOk result (λ selection. selection.locates
        ≡ locates_of query.now.symbols (names_by names.now)) }
    ensures memory { query.now.symbols ≡ None → IsOk result }
    ensures span { IfOk result (λ selection. selection.span ≡ query.now.span) }
    ensures kinds { IfOk result (λ selection. selection.kinds ≡ query.now.kinds) }
{
    let locates = match &query.symbols {
        Some(symbols) => Locates::Listed(LocateList::from_rows(listed(alloc, symbols, names)?)),
        None => Locates::All,
    };
    Ok(Selection {
        locates,
        span: query.span,
        kinds: query.kinds,
    })
}

/// The locates whose names are among the symbols.
fn listed<A: Allocator + Clone, B: Allocator, C: Allocator + Clone>(
    alloc: A,
    symbols: &Symbols<B>,
    names: &Names<C>,
) -> Result<Vec<u16, A>, OutOfMemory>
    ensures { IfOk result (λ rows. rows.items
        ≡ selected_locates symbols.now (names_by names.now)) }
{
    let sorted = SortedSymbols::of(alloc.clone()?, symbols)?;
    let mut rows = Vec::new(alloc);
    for number in 0..LOCATES {
        let locate = number as u16;
        if sorted.hold(names.name(locate).items()) {
            rows.push(locate)?;
        }
    }
    Ok(rows)
}
