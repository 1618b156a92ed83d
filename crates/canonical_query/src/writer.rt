//! Writes a query as its canonical text.
ghost use Rattle.std.specs.Prelude.{◌≡◌, ◌∷◌, ◌++◌, [], ◌<◌, ◌≤◌, ◌&&◌, not, if◌then◌else◌, OnOk, OnErr, IfOk, Some, ℕ};
ghost use Rattle.std.specs.List.{join_with_byte};
ghost use Rattle.canonical_query.specs.Canonical.{canonical, clock_text, kind_condition, kind_letters, linked};
ghost use Rattle.canonical_query.specs.Canonical.{moment_words, next_link, pair_text, spaced, symbol_condition};
ghost use Rattle.canonical_query.specs.Canonical.{time_condition, what_words};

use base::OutOfMemory;
use base::limits::SECONDS_OF_DAY;
use itoa::Buffer;
use meaning::{COMMA, Query, Symbol, Symbols, What};
use probe::{Kinds, Span};
use query::{COLON, SPACE};
use std::alloc::Allocator;

/// Appends the canonical text of a query. A refusal leaves `out` as it was.
pub fn write<A: Allocator + Clone, B: Allocator>(
    out: &mut Vec<u8, A>,
    query: &Query<B>,
) -> Result<(), OutOfMemory>
    ensures ok { OnOk result (out.new.items ≡ out.old.items ++ canonical query.now) }
    ensures unchanged { OnErr result (out.new.items ≡ out.old.items) }
{
    let mut text = Vec::new(out.allocator().clone()?);
    append_query(&mut text, query)?;
    out.extend_from_slice(&text)
}

#[tactic(auto, using(crate::proofs::WriterIsCanonical::text), unfolding(crate::specs::Canonical::canonical))]
fn append_query<A: Allocator, B: Allocator>(
    text: &mut Vec<u8, A>,
    query: &Query<B>,
) -> Result<(), OutOfMemory>
    requires { text.old.items ≡ [] }
    ensures { OnOk result (text.new.items ≡ canonical query.now) }
{
    append_what(text, query.what)?;
    append_moment(text, query.as_of)?;
    let link = append_symbols(text, b"where", &query.symbols)?;
    let link = append_span(text, link, query.span)?;
    append_kinds(text, link, query.kinds)
}

fn append_word<A: Allocator>(text: &mut Vec<u8, A>, word: &[u8]) -> Result<(), OutOfMemory>
    ensures { OnOk result (text.new.items ≡ text.old.items ++ (SPACE ∷ word.now)) }
{
    text.push(SPACE)?;
    text.extend_from_slice(word)
}

fn append_what<A: Allocator>(text: &mut Vec<u8, A>, what: What) -> Result<(), OutOfMemory>
    ensures { OnOk result (text.new.items ≡ text.old.items ++ join_with_byte SPACE (what_words what)) }
{
    match what {
        What::Sales => text.extend_from_slice(b"sales"),
        What::Bars { width } => {
            text.extend_from_slice(b"bars")?;
            append_word(text, Buffer::new().format(width).as_bytes())?;
            append_word(text, b"s")
        }
    }
}

fn append_moment<A: Allocator>(text: &mut Vec<u8, A>, as_of: Option<u32>) -> Result<(), OutOfMemory>
    requires { (time : ℕ) → as_of ≡ Some time → time ≤ SECONDS_OF_DAY }
    ensures { OnOk result (text.new.items ≡ text.old.items ++ spaced (moment_words as_of)) }
{
    let Some(time) = as_of else {
        return Ok(());
    };
    append_word(text, b"as")?;
    append_word(text, b"of")?;
    append_clock(text, time)
}

fn append_joined<A: Allocator>(text: &mut Vec<u8, A>, symbols: &[Symbol]) -> Result<(), OutOfMemory>
    ensures { OnOk result (text.new.items ≡ text.old.items ++ join_with_byte COMMA symbols.now) }
{
    for (place, symbol) in symbols.iter().enumerate() {
        if place > 0 {
            text.push(COMMA)?;
        }
        text.extend_from_slice(symbol.as_slice())?;
    }
    Ok(())
}

/// Appends the condition on symbols, if there is one, and returns the word that links the next
/// condition: `and` after one, else what it was.
#[tactic(auto, using(crate::proofs::WriterIsCanonical::symbols_text))]
fn append_symbols<'a, A: Allocator, B: Allocator>(
    text: &mut Vec<u8, A>,
    link: &'a [u8],
    symbols: &Option<Symbols<B>>,
) -> Result<&'a [u8], OutOfMemory>
    ensures text { OnOk result (text.new.items
        ≡ text.old.items ++ spaced (linked link.now (symbol_condition symbols.now))) }
    ensures link { IfOk result (λ next.
        next.now ≡ next_link link.now (symbol_condition symbols.now)) }
{
    let Some(symbols) = symbols else {
        return Ok(link);
    };
    append_word(text, link)?;
    append_word(text, b"symbol")?;
    append_word(text, b"in")?;
    text.push(SPACE)?;
    append_joined(text, symbols.items())?;
    Ok(b"and")
}

fn pair_text(number: u32) -> [u8; 2]
    requires { number < 100 }
    ensures { result ≡ pair_text number }
{
    [b'0' + (number / 10) as u8, b'0' + (number % 10) as u8]
}

#[tactic(auto, unfolding(crate::specs::Canonical::clock_text))]
fn append_clock<A: Allocator>(text: &mut Vec<u8, A>, time: u32) -> Result<(), OutOfMemory>
    requires { time ≤ SECONDS_OF_DAY }
    ensures { OnOk result (text.new.items ≡ text.old.items ++ (SPACE ∷ clock_text time)) }
{
    text.push(SPACE)?;
    text.extend_from_slice(&pair_text(time / 3600))?;
    text.push(COLON)?;
    text.extend_from_slice(&pair_text(time / 60 % 60))?;
    text.push(COLON)?;
    text.extend_from_slice(&pair_text(time % 60))
}

/// The same for the condition on times.
#[tactic(auto, using(crate::proofs::WriterIsCanonical::span_text))]
fn append_span<'a, A: Allocator>(
    text: &mut Vec<u8, A>,
    link: &'a [u8],
    span: Option<Span>,
) -> Result<&'a [u8], OutOfMemory>
    requires { (times : Span) → span ≡ Some times → (times.since ≤ SECONDS_OF_DAY) × (times.until ≤ SECONDS_OF_DAY) }
    ensures text { OnOk result (text.new.items
        ≡ text.old.items ++ spaced (linked link.now (time_condition span))) }
    ensures link { IfOk result (λ next. next.now ≡ next_link link.now (time_condition span)) }
{
    let Some(span) = span else {
        return Ok(link);
    };
    append_word(text, link)?;
    append_word(text, b"time")?;
    append_word(text, b"from")?;
    append_clock(text, span.since)?;
    append_word(text, b"until")?;
    append_clock(text, span.until)?;
    Ok(b"and")
}

/// Appends a letter, if it is chosen, and answers whether the next one is still the first.
fn append_letter<A: Allocator>(
    text: &mut Vec<u8, A>,
    is_first: bool,
    chosen: bool,
    letter: u8,
) -> Result<bool, OutOfMemory>
    ensures text { OnOk result (text.new.items ≡ text.old.items
        ++ (if chosen then (if is_first then letter ∷ [] else COMMA ∷ letter ∷ []) else [])) }
    ensures first { IfOk result (λ still. still ≡ (is_first && not chosen)) }
{
    if !chosen {
        return Ok(is_first);
    }
    if !is_first {
        text.push(COMMA)?;
    }
    text.push(letter)?;
    Ok(false)
}

fn append_letters<A: Allocator>(text: &mut Vec<u8, A>, kinds: Kinds) -> Result<(), OutOfMemory>
    ensures { OnOk result (text.new.items
        ≡ text.old.items ++ join_with_byte COMMA (kind_letters kinds)) }
{
    let is_first = append_letter(text, true, kinds.e, b'E')?;
    let is_first = append_letter(text, is_first, kinds.c, b'C')?;
    let is_first = append_letter(text, is_first, kinds.p, b'P')?;
    append_letter(text, is_first, kinds.q, b'Q')?;
    Ok(())
}

fn append_kinds<A: Allocator>(
    text: &mut Vec<u8, A>,
    link: &[u8],
    kinds: Kinds,
) -> Result<(), OutOfMemory>
    ensures { OnOk result (text.new.items
        ≡ text.old.items ++ spaced (linked link.now (kind_condition kinds))) }
{
    if kinds.e && kinds.c && kinds.p && kinds.q {
        return Ok(());
    }
    append_word(text, link)?;
    append_word(text, b"kind")?;
    append_word(text, b"in")?;
    text.push(SPACE)?;
    append_letters(text, kinds)
}
