//! Words that stand for a value.
ghost use Rattle.std.specs.Prelude.{◌≡◌, ◌+◌, ◌*◌, ◌<◌, ◌≤◌, ◌^◌, length, IfOk, IfSome, is_some, Some, true};
ghost use Rattle.std.specs.Char.{is_ascii_digit};
ghost use Rattle.std.specs.List.{list_all};
ghost use Rattle.query.specs.Values.{clock_of, is_kind, kinds_of, number_from, count_of, pair_at, symbols_of, time_of};
ghost use Rattle.query.specs.Values.{unit_of};
ghost use Rattle.query.specs.Words.{split_by};

use crate::words::cut;
use base::limits::SECONDS_OF_DAY;
use meaning::{COMMA, OutOfMemory, Symbol, Symbols};
use probe::Kinds;
use std::alloc::Allocator;

/// What parts the hours, minutes and seconds of a time.
pub const COLON: u8 = b':';

fn all_digits(bytes: &[u8]) -> bool
    ensures { result ≡ list_all is_ascii_digit bytes.now }
{
    bytes.iter().all(|byte| byte.is_ascii_digit())
}

fn number_from(digits: &[u8]) -> u32
    requires digits { list_all is_ascii_digit digits.now ≡ true }
    requires short { length digits.now ≤ 5 }
    ensures value { result ≡ number_from digits.now }
    ensures small { result < 100000 }
{
    let mut value = 0;
    for digit in digits {
        value = 10 * value + u32::from(*digit - b'0');
    }
    value
}

/// The number that a word of one to five digits writes.
#[tactic(auto, unfolding(crate::specs::Values::count_of))]
pub(crate) fn count_of(bytes: &[u8]) -> Option<u32>
    ensures value { result ≡ count_of bytes.now }
    ensures small { IfSome result (λ number. number < 100000) }
{
    if (1..=5).contains(&bytes.len()) && all_digits(bytes) {
        Some(number_from(bytes))
    } else {
        None
    }
}

/// The seconds of a unit.
#[tactic(auto, unfolding(crate::specs::Values::unit_of))]
pub(crate) fn unit_of(bytes: &[u8]) -> Option<u32>
    ensures value { result ≡ unit_of bytes.now }
    ensures small { IfSome result (λ seconds. seconds ≤ 3600) }
{
    match bytes {
        [b's'] => Some(1),
        [b'm'] => Some(60),
        [b'h'] => Some(3600),
        _ => None,
    }
}

#[tactic(auto, unfolding(crate::specs::Values::pair_at))]
fn pair_at(bytes: &[u8], place: usize) -> Option<u32>
    requires { place + 1 < length bytes.now }
    ensures value { result ≡ pair_at place bytes.now }
    ensures small { IfSome result (λ number. number < 100) }
{
    let (tens, units) = (bytes[place], bytes[place + 1]);
    if tens.is_ascii_digit() && units.is_ascii_digit() {
        Some(10 * u32::from(tens - b'0') + u32::from(units - b'0'))
    } else {
        None
    }
}

#[tactic(auto, unfolding(crate::specs::Values::clock_of))]
fn clock_of(bytes: &[u8]) -> Option<u32>
    ensures value { result ≡ clock_of bytes.now }
    ensures small { IfSome result (λ seconds. seconds ≤ SECONDS_OF_DAY) }
{
    if bytes.len() != 8 || bytes[2] != COLON || bytes[5] != COLON {
        return None;
    }
    let hours = pair_at(bytes, 0)?;
    let minutes = pair_at(bytes, 3)?;
    let seconds = pair_at(bytes, 6)?;
    if hours < 24 && minutes < 60 && seconds < 60 {
        Some(3600 * hours + 60 * minutes + seconds)
    } else {
        None
    }
}

/// The seconds since midnight of a word `HH:MM:SS`, or of the day's end.
#[tactic(auto, unfolding(crate::specs::Values::time_of))]
pub(crate) fn time_of(bytes: &[u8]) -> Option<u32>
    ensures value { result ≡ time_of bytes.now }
    ensures small { IfSome result (λ seconds. seconds ≤ SECONDS_OF_DAY) }
{
    if bytes == b"24:00:00".as_slice() {
        Some(SECONDS_OF_DAY)
    } else {
        clock_of(bytes)
    }
}

/// The symbols of a list with a comma between each two, if it is one.
#[tactic(auto, using(crate::proofs::ValueLists::lists), unfolding(crate::specs::Values::symbols_of))]
pub(crate) fn symbols_of<A: Allocator + Clone>(
    alloc: &A,
    bytes: &[u8],
) -> Result<Option<Symbols<A>>, OutOfMemory>
    ensures { IfOk result (λ symbols. symbols ≡ symbols_of bytes.now) }
{
    let mut items = Vec::new(alloc.clone()?);
    let mut rest = Some(bytes);
    while let Some(text) = rest {
        let (part, after) = cut(text, COMMA);
        let Some(symbol) = Symbol::of(part) else {
            return Ok(None);
        };
        items.push(symbol)?;
        rest = after;
    }
    Ok(Some(Symbols::from_vec(items)))
}

fn is_kind(part: &[u8]) -> bool
    ensures { result ≡ is_kind part.now }
{
    matches!(part, [b'E' | b'C' | b'P' | b'Q'])
}

fn are_kinds(bytes: &[u8]) -> bool
    ensures { result ≡ list_all is_kind (split_by COMMA bytes.now) }
{
    let mut rest = Some(bytes);
    while let Some(text) = rest {
        let (part, after) = cut(text, COMMA);
        if !is_kind(part) {
            return false;
        }
        rest = after;
    }
    true
}

/// The kinds of a list with a comma between each two.
#[tactic(auto, unfolding(crate::specs::Values::kinds_of))]
pub(crate) fn kinds_of(bytes: &[u8]) -> Option<Kinds>
    ensures { result ≡ kinds_of bytes.now }
{
    if !are_kinds(bytes) {
        return None;
    }
    Some(Kinds {
        e: bytes.contains(&b'E'),
        c: bytes.contains(&b'C'),
        p: bytes.contains(&b'P'),
        q: bytes.contains(&b'Q'),
    })
}
