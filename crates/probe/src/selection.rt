//! Which sales a query asks for.
ghost use Rattle.std.specs.Prelude.{◌≡◌, Some, true};
ghost use Rattle.probe.specs.Selection.{admits, has_kind, has_locate, has_time};
ghost use Rattle.row_types.specs.declared.trade.Sale.{Sale};

use crate::locates::LocateList;
use base::limits::NANOSECONDS;
use row_types::{Kind, Sale};
use std::alloc::{Allocator, Global};

/// The locates whose sales are asked for.
#[derive(Drop)]
#[derive_where(PartialEq, Eq)]
pub enum Locates<A: Allocator = Global> {
    /// Every locate.
    All,
    /// These and no other.
    Listed(LocateList<A>),
}

impl<A: Allocator> Locates<A> {
    fn hold(&self, locate: u16) -> bool
        ensures { result ≡ has_locate self.now locate }
    {
        match self {
            Locates::All => true,
            Locates::Listed(list) => list.holds(locate),
        }
    }
}

/// A part of the day, in seconds since midnight (0 to 86,400).
#[derive(Clone, Copy, PartialEq, Eq)]
pub struct Span {
    /// The first second.
    pub since: u32,
    /// The first second that isn't in it any more.
    pub until: u32,
}

impl Span {
    /// Whether a time, in nanoseconds since midnight, is in the span.
    fn holds(self, time: u64) -> bool
        ensures { result ≡ has_time (Some self) time }
    {
        u64::from(self.since) * NANOSECONDS <= time && time < u64::from(self.until) * NANOSECONDS
    }
}

/// The kinds of trades that are asked for.
#[derive(Clone, Copy, PartialEq, Eq)]
pub struct Kinds {
    pub e: bool,
    pub c: bool,
    pub p: bool,
    pub q: bool,
}

impl Kinds {
    fn hold(self, kind: Kind) -> bool
        ensures { result ≡ has_kind self kind }
    {
        match kind {
            Kind::E => self.e,
            Kind::C => self.c,
            Kind::P => self.p,
            Kind::Q => self.q,
        }
    }
}

/// Which sales a query asks for.
#[derive(Drop)]
#[derive_where(PartialEq, Eq)]
pub struct Selection<A: Allocator = Global> {
    pub locates: Locates<A>,
    /// The part of the day, or every time.
    pub span: Option<Span>,
    pub kinds: Kinds,
}

impl Selection {
    /// Asks for every sale.
    pub fn all() -> Self
        ensures { (sale : Sale) → admits result sale ≡ true }
    {
        Selection {
            locates: Locates::All,
            span: None,
            kinds: Kinds {
                e: true,
                c: true,
                p: true,
                q: true,
            },
        }
    }
}

impl<A: Allocator> Selection<A> {
    /// Whether the selection asks for the sale. A span goes from `since` on to before `until`.
    pub fn admits(&self, sale: &Sale) -> bool
        ensures { result ≡ admits self.now sale.now }
    {
        self.locates.hold(sale.locate)
            && self.span.is_none_or(|span| span.holds(sale.time))
            && self.kinds.hold(sale.kind)
    }
}
