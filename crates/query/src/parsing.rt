//! Reads a text as a query.
#![tactic(auto, using(crate::proofs::WordByWord::reading), unfolding(crate::specs::Faults::step))]

ghost use Rattle.std.specs.Prelude.{◌≡◌, ◌≢◌, ◌≤◌, IfOk, IfErr, IfSome, MatchResult, OnOk, Ok, Err, Some, codes, true};
ghost use Rattle.query.specs.Faults.{condition, first_query_fault, IsRefused, kind_list, linked, moment, query};
ghost use Rattle.query.specs.Faults.{read_from, symbol_list, time_span, width};
ghost use Rattle.query.specs.Grammar.{Means, meaning_of, only};
ghost use Rattle.query.specs.Words.{begins_list, IsLater, lists_symbols, words_of};
ghost use Rattle.meaning.specs.Meaning.{CanBeSpelled, HasWidth, Meaning, is_width};
ghost use Rattle.meaning.specs.declared.query.What.TheVariants.{Bars};

use crate::values::{count_of, kinds_of, symbols_of, unit_of};
use crate::words::Words;
use base::limits::SECONDS_OF_DAY;
use meaning::{Query, Symbols, What};
use outcomes::QueryFault;
use probe::{Kinds, Span};
use std::alloc::Allocator;
use std::marker::Model;

/// Reads the query that a text spells, in time linear in its length. Of several faults it reports the first from the
/// left. It takes memory only for the list of symbols, so it runs out of memory only if the text has one.
#[tactic(auto, using(crate::proofs::MeaningOrFault::told))]
pub fn parse<A: Allocator + Clone>(alloc: A, text: &str) -> Result<Query<A>, QueryFault>
    ensures meaning { IfOk result (λ query. Means (words_of text.now) query) }
    ensures sound { IfOk result CanBeSpelled }
    ensures fault { IfErr result (λ fault. fault ≢ QueryFault.OutOfMemory →
        first_query_fault (words_of text.now) ≡ Some fault) }
    ensures memory { IfErr result (λ fault. fault ≡ QueryFault.OutOfMemory →
        lists_symbols (words_of text.now) ≡ true) }
    ensures exactly { (meaning : Meaning) → Means (words_of text.now) meaning →
        MatchResult result (λ query. query ≡ meaning) (λ fault. fault ≡ QueryFault.OutOfMemory) }
{
    read_query(&alloc, &mut Words::of(text.as_bytes()))
}

/// Reads to the end of the text.
#[tactic(auto, using(crate::proofs::WordByWord::refusing))]
fn read_query<A: Allocator + Clone>(
    alloc: &A,
    words: &mut Words<'_>,
) -> Result<Query<A>, QueryFault>
    ensures ok { IfOk result (λ read. read_from query words.old ≡ Ok read) }
    ensures sound { IfOk result CanBeSpelled }
    ensures err { IfErr result (IsRefused query words.old) }
{
    let what = read_what(words)?;
    let as_of = words.moment()?;
    let mut builder = QueryBuilder::new(what, as_of);
    builder.read_filter(alloc, words)?;
    Ok(builder.into_query())
}

/// Reads `sales`, or `bars` and a width.
fn read_what(words: &mut Words<'_>) -> Result<What, QueryFault>
    ensures ok { IfOk result (λ what.
        read_from query words.old ≡ read_from (moment (only what)) words.new) }
    ensures sound { IfOk result HasWidth }
    ensures err { IfErr result (λ fault. (fault ≢ QueryFault.OutOfMemory) × (read_from query words.old ≡ Err fault)) }
    ensures later { OnOk result (IsLater words.old words.new) }
{
    let word = words.required()?;
    if word.is(b"sales") {
        Ok(What::Sales)
    } else if word.is(b"bars") {
        let width = read_width(words)?;
        Ok(What::Bars { width })
    } else {
        Err(QueryFault::UnknownWord { at: word.at })
    }
}

/// Reads a number and its unit.
fn read_width(words: &mut Words<'_>) -> Result<u32, QueryFault>
    ensures ok { IfOk result (λ seconds.
        read_from width words.old ≡ read_from (moment (only (Bars seconds))) words.new) }
    ensures sound { IfOk result (λ seconds. is_width seconds ≡ true) }
    ensures err { IfErr result (λ fault. (fault ≢ QueryFault.OutOfMemory) × (read_from width words.old ≡ Err fault)) }
    ensures later { OnOk result (IsLater words.old words.new) }
{
    let number = words.required()?;
    let count = count_of(number.bytes).ok_or(QueryFault::BadNumber { at: number.at })?;
    let unit = words.required()?;
    let seconds = unit_of(unit.bytes).ok_or(QueryFault::UnknownWord { at: unit.at })?;
    let width = count * seconds;
    if (1..=SECONDS_OF_DAY).contains(&width) {
        Ok(width)
    } else {
        Err(QueryFault::BadNumber { at: number.at })
    }
}

const ALL_KINDS: Kinds = Kinds {
    e: true,
    c: true,
    p: true,
    q: true,
};

/// What the words so far have said; a moment or condition that wasn't given is `None`.
#[derive(Drop)]
pub(crate) struct QueryBuilder<A: Allocator> {
    what: What,
    as_of: Option<u32>,
    symbols: Option<Symbols<A>>,
    span: Option<Span>,
    kinds: Option<Kinds>,
}

impl<A: Allocator> Model for QueryBuilder<A> {
    ghost use Rattle.query.specs.Grammar.{Said, meaning_of};
    ghost use Rattle.meaning.specs.Meaning.{CanBeSpelled};

    ghost Value = { Said };

    ghost view = { λ r.
        record { what = r.what; as_of = r.as_of; symbols = r.symbols; span = r.span; kinds = r.kinds } };

    ghost invariant = { λ r. CanBeSpelled (meaning_of (
        record { what = r.what; as_of = r.as_of; symbols = r.symbols; span = r.span; kinds = r.kinds })) };
}

impl<A: Allocator + Clone> QueryBuilder<A> {
    /// No condition was given yet.
    pub(crate) fn new(what: What, as_of: Option<u32>) -> Self
        requires listed { HasWidth what }
        requires moment { IfSome as_of (λ time. time ≤ SECONDS_OF_DAY) }
        ensures { result ≡ record (only what) { as_of = as_of } }
    {
        QueryBuilder {
            what,
            as_of,
            symbols: None,
            span: None,
            kinds: None,
        }
    }

    /// The whole query, if no word follows.
    pub(crate) fn into_query(self) -> Query<A>
        ensures meaning { result ≡ meaning_of self }
        ensures sound { CanBeSpelled result }
    {
        Query {
            what: self.what,
            as_of: self.as_of,
            symbols: self.symbols,
            span: self.span,
            kinds: self.kinds.unwrap_or(ALL_KINDS),
        }
    }

    /// Reads to the end of the text: nothing, or `where` and conditions with `and` between each two.
    #[tactic(auto, using(crate::proofs::WordByWord::refusing))]
    pub(crate) fn read_filter(&mut self, alloc: &A, words: &mut Words<'_>) -> Result<(), QueryFault>
        ensures ok { OnOk result (read_from (linked (codes "where") self.old) words.old ≡ Ok (meaning_of self.new)) }
        ensures err { IfErr result (IsRefused (linked (codes "where") self.old) words.old) }
    {
        let mut link = b"where".as_slice();
        while words.follows(link)? {
            self.read_condition(alloc, words)?;
            link = b"and";
        }
        Ok(())
    }

    /// Reads one condition.
    fn read_condition(&mut self, alloc: &A, words: &mut Words<'_>) -> Result<(), QueryFault>
        ensures ok { OnOk result (read_from (condition self.old) words.old
            ≡ read_from (linked (codes "and") self.new) words.new) }
        ensures err { IfErr result (IsRefused (condition self.old) words.old) }
        ensures later { OnOk result (IsLater words.old words.new) }
    {
        let word = words.required()?;
        let at = word.at;
        if word.is(b"symbol") {
            if self.symbols.is_some() {
                return Err(QueryFault::Repeated { at });
            }
            self.read_symbols(alloc, words)
        } else if word.is(b"time") {
            if self.span.is_some() {
                return Err(QueryFault::Repeated { at });
            }
            self.read_span(words)
        } else if word.is(b"kind") {
            if self.kinds.is_some() {
                return Err(QueryFault::Repeated { at });
            }
            self.read_kinds(words)
        } else {
            Err(QueryFault::UnknownWord { at })
        }
    }

    /// Reads `in` and a list of symbols.
    #[tactic(auto, using(crate::proofs::WordByWord::stays))]
    fn read_symbols(&mut self, alloc: &A, words: &mut Words<'_>) -> Result<(), QueryFault>
        ensures ok { OnOk result (read_from (symbol_list self.old) words.old
            ≡ read_from (linked (codes "and") self.new) words.new) }
        ensures err { IfErr result (λ fault. fault ≢ QueryFault.OutOfMemory →
            read_from (symbol_list self.old) words.old ≡ Err fault) }
        ensures memory { IfErr result (λ fault. fault ≡ QueryFault.OutOfMemory →
            begins_list words.old ≡ true) }
        ensures later { OnOk result (IsLater words.old words.new) }
    {
        let list = words.after(b"in")?;
        let symbols = symbols_of(alloc, list.bytes).map_err(|_| QueryFault::OutOfMemory)?;
        self.symbols = Some(symbols.ok_or(QueryFault::UnknownWord { at: list.at })?);
        Ok(())
    }

    /// Reads `from`, a time, `until` and a time.
    #[tactic(auto, using(crate::proofs::WordByWord::stays))]
    fn read_span(&mut self, words: &mut Words<'_>) -> Result<(), QueryFault>
        ensures ok { OnOk result (read_from (time_span self.old) words.old
            ≡ read_from (linked (codes "and") self.new) words.new) }
        ensures err { IfErr result (λ fault. (fault ≢ QueryFault.OutOfMemory)
            × (read_from (time_span self.old) words.old ≡ Err fault)) }
        ensures later { OnOk result (IsLater words.old words.new) }
    {
        let since = words.time_after(b"from")?;
        let until = words.time_after(b"until")?;
        if since < until {
            self.span = Some(Span { since, until });
            Ok(())
        } else {
            Err(QueryFault::EmptyRange)
        }
    }

    /// Reads `in` and a list of kinds.
    #[tactic(auto, using(crate::proofs::ValueLists::some_kind, crate::proofs::WordByWord::stays))]
    fn read_kinds(&mut self, words: &mut Words<'_>) -> Result<(), QueryFault>
        ensures ok { OnOk result (read_from (kind_list self.old) words.old
            ≡ read_from (linked (codes "and") self.new) words.new) }
        ensures err { IfErr result (λ fault. (fault ≢ QueryFault.OutOfMemory)
            × (read_from (kind_list self.old) words.old ≡ Err fault)) }
        ensures later { OnOk result (IsLater words.old words.new) }
    {
        let list = words.after(b"in")?;
        self.kinds = Some(kinds_of(list.bytes).ok_or(QueryFault::UnknownWord { at: list.at })?);
        Ok(())
    }
}
