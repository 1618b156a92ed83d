//! A set of match numbers.
ghost use Rattle.std.specs.Prelude.{◌≡◌, ℕ, [], IsOk, List, OnErr, OnOk, nat_eq};
ghost use Rattle.std.specs.Cmp.{partial_equiv_from_equiv};
ghost use Rattle.std.specs.Cmp.Lexicographic.{nat_list_eq_equiv, pointwise};
ghost use Rattle.std.specs.List.Sorted.{IsStrictlyIncreasing};
ghost use Rattle.base.specs.Among.{HasNumbersOf, IsUnion, is_among};

use crate::OutOfMemory;
use std::alloc::{Allocator, Global};
use std::marker::Model;

/// The match numbers that Broken Trade messages name (TotalView-ITCH 5.0, section 1.5.3), rising.
#[derive(Drop)]
pub struct Breaks<A: Allocator = Global> {
    numbers: Vec<u64, A>,
}

impl<A: Allocator> Model for Breaks<A> {
    ghost Value = { List ℕ };

    ghost view = { λ breaks. breaks.numbers.items };

    ghost invariant = { λ breaks. IsStrictlyIncreasing breaks.numbers.items };
}

impl<A: Allocator> Breaks<A> {
    /// No trade is broken.
    pub fn none(alloc: A) -> Breaks<A>
        ensures { result ≡ [] }
    {
        Breaks {
            numbers: Vec::new(alloc),
        }
    }

    /// The numbers of the breaks, in whatever order they are and however often each occurs. Takes no memory.
    pub fn from_rows(mut rows: Vec<u64, A>) -> Breaks<A>
        ensures numbers { HasNumbersOf rows.items result }
        ensures rising { IsStrictlyIncreasing result }
    {
        make_rising(&mut rows);
        Breaks { numbers: rows }
    }

    /// Whether a break names the match number.
    #[inline(always)]
    pub fn holds(&self, trade_no: u64) -> bool
        ensures { result ≡ is_among self.now trade_no }
    {
        self.numbers.binary_search(&trade_no).is_ok()
    }

    /// Takes in the breaks of the other. It is refused if there is no memory for them, and never if there are none.
    pub fn unite<B: Allocator>(&mut self, other: &Breaks<B>) -> Result<(), OutOfMemory>
        ensures numbers { OnOk result (IsUnion self.old other.now self.new) }
        ensures rising { IsStrictlyIncreasing self.new }
        ensures err { OnErr result (self.new ≡ self.old) }
        ensures none { other.now ≡ [] → IsOk result }
    {
        self.numbers.extend_from_slice(other.items())?;
        make_rising(&mut self.numbers);
        Ok(())
    }

    /// The numbers, rising.
    #[inline(always)]
    pub fn items(&self) -> &[u64]
        ensures items { result.now ≡ self.now }
        ensures rising { IsStrictlyIncreasing self.now }
    {
        self.numbers.as_slice()
    }

    /// Gives the vector back, and takes no memory.
    pub fn into_vec(self) -> Vec<u64, A>
        ensures value { result.items ≡ self }
        ensures rising { IsStrictlyIncreasing result.items }
    {
        let Breaks { numbers } = self;
        numbers
    }
}

/// Sorts the numbers, and leaves each of them once.
fn make_rising<A: Allocator>(numbers: &mut Vec<u64, A>)
    ensures numbers { HasNumbersOf numbers.old.items numbers.new.items }
    ensures rising { IsStrictlyIncreasing numbers.new.items }
{
    numbers.sort_unstable();
    numbers.dedup();
}

/// Breaks are equal if they have the same numbers.
impl<A: Allocator> PartialEq for Breaks<A> {
    ghost eq = { pointwise nat_eq };

    ghost laws = { partial_equiv_from_equiv nat_list_eq_equiv };

    fn eq(&self, other: &Breaks<A>) -> bool {
        self.items() == other.items()
    }
}

impl<A: Allocator> Eq for Breaks<A> {
    ghost laws = { nat_list_eq_equiv };
}
