//! The symbols that a query lists.
ghost use Rattle.std.specs.Prelude.{◌≡◌, true, false, MatchOption};
ghost use Rattle.std.specs.List.{list_all};
ghost use Rattle.meaning.specs.Meaning.{are_symbols, is_symbol, is_symbol_byte};

use arrayvec::ArrayVec;
use std::alloc::{Allocator, Global};
use std::marker::Model;

/// What parts the symbols of a list, or other items; no symbol has one.
pub const COMMA: u8 = b',';

/// A symbol: 1 to 8 visible ASCII characters, none of them a comma, held in place. A clause sees its bytes.
#[derive(Drop)]
pub struct Symbol {
    bytes: ArrayVec<u8, 8>,
}

impl Model for Symbol {
    ghost use Rattle.std.specs.Prelude.{◌≡◌, List, true, ℕ};
    ghost use Rattle.meaning.specs.Meaning.{is_symbol};

    ghost Value = { List ℕ };

    ghost view = { λ symbol. symbol.bytes.items };

    ghost invariant = { λ symbol. is_symbol symbol.bytes.items ≡ true };
}

/// One or more symbols, in the order in which they were listed and as often. A clause sees them as a list.
#[derive(Drop)]
pub struct Symbols<A: Allocator = Global> {
    items: Vec<Symbol, A>,
}

impl<A: Allocator> Model for Symbols<A> {
    ghost use Rattle.std.specs.Prelude.{◌≡◌, List, true, ℕ};
    ghost use Rattle.meaning.specs.Meaning.{are_symbols};

    ghost Value = { List (List ℕ) };

    ghost view = { λ symbols. symbols.items.items };

    ghost invariant = { λ symbols. are_symbols symbols.items.items ≡ true };
}

fn is_symbol_byte(byte: u8) -> bool
    ensures { result ≡ is_symbol_byte byte }
{
    matches!(byte, b'!'..=b'~') && byte != COMMA
}

fn all_symbol_bytes(bytes: &[u8]) -> bool
    ensures { result ≡ list_all is_symbol_byte bytes.now }
{
    bytes.iter().all(|byte| is_symbol_byte(*byte))
}

impl Symbol {
    /// The symbol of these bytes, if they are one.
    #[tactic(auto, unfolding(crate::specs::Meaning::is_symbol))]
    pub fn of(part: &[u8]) -> Option<Symbol>
        ensures { MatchOption result (is_symbol part.now ≡ false)
            (λ symbol. (symbol ≡ part.now) × (is_symbol part.now ≡ true)) }
    {
        if part.is_empty() || !all_symbol_bytes(part) {
            return None;
        }
        let mut bytes = ArrayVec::new();
        bytes.try_extend_from_slice(part).ok()?;
        Some(Symbol { bytes })
    }

    pub fn as_slice(&self) -> &[u8]
        ensures value { result.now ≡ self.now }
        ensures sound { is_symbol result.now ≡ true }
    {
        self.bytes.as_slice()
    }
}

impl<A: Allocator> Symbols<A> {
    /// These symbols, one or more. Takes no memory.
    pub fn from_vec(items: Vec<Symbol, A>) -> Self
        requires { are_symbols items.items ≡ true }
        ensures { result ≡ items.items }
    {
        Symbols { items }
    }

    /// The symbols in their order.
    pub fn items(&self) -> &[Symbol]
        ensures value { result.now ≡ self.now }
        ensures sound { are_symbols self.now ≡ true }
    {
        self.items.as_slice()
    }

    /// Gives the vector back, and takes no memory.
    pub fn into_vec(self) -> Vec<Symbol, A>
        ensures { result.items ≡ self }
    {
        self.items
    }
}
