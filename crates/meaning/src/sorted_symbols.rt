//! The symbols of a query in rising order, for names to be looked up in.
ghost use Rattle.std.specs.Prelude.{◌≡◌, IfOk};
ghost use Rattle.std.specs.List.{list_any};
ghost use Rattle.std.specs.List.Sorted.{IsPermutation};
ghost use Rattle.std.specs.Str.{bytes_eq};

use crate::OutOfMemory;
use crate::symbols::Symbols;
use std::alloc::Allocator;
use std::marker::Model;

/// Symbols in rising order of their bytes, each as often as it was listed. A clause sees them as a list.
#[derive(Drop)]
pub(crate) struct SortedSymbols<'a, A: Allocator> {
    names: Vec<&'a [u8], A>,
}

impl<'a, A: Allocator> Model for SortedSymbols<'a, A> {
    ghost use Rattle.std.specs.Prelude.{List, ℕ, map};
    ghost use Rattle.std.specs.Cmp.Lexicographic.{slice_cmp};
    ghost use Rattle.std.specs.List.Sorted.{IsSorted};
    ghost use Rattle.std.specs.Ordering.{nat_cmp};

    ghost Value = { List (List ℕ) };

    ghost view = { λ sorted. map (λ name. name.now) sorted.names.items };

    ghost invariant = { λ sorted. IsSorted (λ x y. slice_cmp nat_cmp x.now y.now) sorted.names.items };
}

impl<'a, A: Allocator> SortedSymbols<'a, A> {
    /// Sorts the symbols. Takes memory for a reference to each of them.
    pub(crate) fn of<B: Allocator>(alloc: A, symbols: &'a Symbols<B>) -> Result<Self, OutOfMemory>
        ensures { IfOk result (λ sorted. IsPermutation symbols.now sorted) }
    {
        let mut names = Vec::with_capacity(alloc, symbols.items().len())?;
        for symbol in symbols.items() {
            names.push(symbol.as_slice())?;
        }
        names.sort_unstable();
        Ok(SortedSymbols { names })
    }

    /// Whether a name is among the symbols, by a binary search.
    pub(crate) fn hold(&self, name: &[u8]) -> bool
        ensures { result ≡ list_any (λ symbol. bytes_eq symbol name.now) self.now }
    {
        self.names.binary_search(&name).is_ok()
    }
}
