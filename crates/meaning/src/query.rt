//! A query: what is listed, and of which sales.

use crate::symbols::Symbols;
use probe::{Kinds, Span};
use std::alloc::{Allocator, Global};
use std::marker::Model;

/// What a query lists.
#[derive(Clone, Copy, PartialEq, Eq)]
pub enum What {
    /// Each sale.
    Sales,
    /// The bars of each locate.
    Bars {
        /// Of a bar, in seconds: 1 to 86,400.
        width: u32,
    },
}

/// What is listed, and of which sales. Each query can be spelled in the language: it has one or more kinds, a moment no
/// later than the day's end, and a span that isn't empty and ends with the day or before. A clause sees what it means.
#[derive(Drop)]
pub struct Query<A: Allocator = Global> {
    pub what: What,
    /// Messages after this moment don't count; if there is none, each counts. In seconds since midnight, 0 to 86,400.
    pub as_of: Option<u32>,
    /// The symbols whose sales are listed, or those of each.
    pub symbols: Option<Symbols<A>>,
    /// The part of the day, or the whole day.
    pub span: Option<Span>,
    /// All four if the text names none.
    pub kinds: Kinds,
}

impl<A: Allocator> Model for Query<A> {
    ghost use Rattle.meaning.specs.Meaning.{CanBeSpelled, Meaning};

    ghost Value = { Meaning };

    ghost view = { λ q.
        record { what = q.what; as_of = q.as_of; symbols = q.symbols; span = q.span; kinds = q.kinds } };

    ghost invariant = { λ q. CanBeSpelled (
        record { what = q.what; as_of = q.as_of; symbols = q.symbols; span = q.span; kinds = q.kinds }) };
}
