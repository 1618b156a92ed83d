//! A set of locates. A clause sees a `LocateList` as its numbers, which rise.
ghost use Rattle.std.specs.Prelude.{◌≡◌, ℕ, List, nat_eq};
ghost use Rattle.std.specs.Cmp.Lexicographic.{pointwise};
ghost use Rattle.std.specs.Cmp.Rules.{comparing};
ghost use Rattle.std.proofs.Common.{rules};
ghost use Rattle.std.specs.List.Sorted.{IsStrictlyIncreasing};
ghost use Rattle.base.specs.Among.{HasNumbersOf, is_among};

use std::alloc::{Allocator, Global};
use std::marker::Model;

/// Locates in rising order, none of them twice.
#[derive(Drop)]
pub struct LocateList<A: Allocator = Global> {
    numbers: Vec<u16, A>,
}

impl<A: Allocator> Model for LocateList<A> {
    ghost Value = { List ℕ };

    ghost view = { λ list. list.numbers.items };

    ghost invariant = { λ list. IsStrictlyIncreasing list.numbers.items };
}

impl<A: Allocator> LocateList<A> {
    /// The locates of `rows`, which has them in any order and any number of times. Sorts in the
    /// vector that it is handed, and takes no memory.
    pub fn from_rows(mut rows: Vec<u16, A>) -> Self
        ensures numbers { HasNumbersOf rows.items result }
        ensures rising { IsStrictlyIncreasing result }
    {
        rows.sort_unstable();
        rows.dedup();
        LocateList { numbers: rows }
    }

    pub fn holds(&self, locate: u16) -> bool
        ensures { result ≡ is_among self.now locate }
    {
        self.numbers.binary_search(&locate).is_ok()
    }

    pub fn items(&self) -> &[u16]
        ensures value { result.now ≡ self.now }
        ensures rising { IsStrictlyIncreasing self.now }
    {
        self.numbers.as_slice()
    }

    /// Gives the vector back, and takes no memory.
    pub fn into_vec(self) -> Vec<u16, A>
        ensures { result.items ≡ self }
    {
        let LocateList { numbers } = self;
        numbers
    }
}

impl<A: Allocator> PartialEq for LocateList<A> {
    ghost eq = { pointwise nat_eq };

    ghost laws = { Prim.search (comparing, rules) };

    fn eq(&self, other: &Self) -> bool {
        self.numbers == other.numbers
    }
}

impl<A: Allocator> Eq for LocateList<A> {
    ghost laws = { Prim.search (comparing, rules) };
}
