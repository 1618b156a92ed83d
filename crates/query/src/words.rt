//! The words of a text, one after the other.
#![tactic(auto, using(crate::proofs::WordByWord::reading), unfolding(crate::specs::Faults::step))]

ghost use Rattle.std.specs.Prelude.{◌≡◌, ◌+◌, ◌<◌, ◌≤◌, ◌^◌, ◌∷◌, ◌++◌, [], length, MatchOption, IfOk, IfErr, IfSome};
ghost use Rattle.std.specs.Prelude.{OnOk, position, ◌==◌, ◌≢◌, if◌then◌else◌, codes, Ok, Err, ℕ, true};
ghost use Rattle.std.specs.Option.{option_map_or};
ghost use Rattle.query.specs.Words.{IsLater, Word, begins_list, lists_symbols, split_by, reads_as, word, words_from};
ghost use Rattle.query.specs.Values.{time_of};
ghost use Rattle.query.specs.Faults.{Next, condition, linked, moment, needs, read_from, text, timed};
ghost use Rattle.query.specs.Grammar.{Said, meaning_of, only};

use crate::values::time_of;
use base::limits::SECONDS_OF_DAY;
use outcomes::QueryFault;
use std::marker::Model;

/// What parts the words of a text.
pub const SPACE: u8 = b' ';

/// A word, and the number of bytes that come before it in the text.
#[derive(Clone, Copy)]
pub(crate) struct Word<'a> {
    pub(crate) at: usize,
    pub(crate) bytes: &'a [u8],
}

/// The words that are left of a text.
#[derive(Drop)]
pub(crate) struct Words<'a> {
    at: usize,
    rest: Option<&'a [u8]>,
}

impl<'a> Model for Words<'a> {
    ghost use Rattle.std.specs.Prelude.{List, [], ◌+◌, ◌<◌, ◌^◌, length, MatchOption};
    ghost use Rattle.std.specs.Option.{option_map_or};
    ghost use Rattle.query.specs.Words.{Word, words_from};

    ghost Value = { List Word };

    ghost view = { λ words. option_map_or (λ rest. words_from words.at rest.now) words.rest [] };

    ghost invariant = { λ words.
        MatchOption words.rest (Unit {0}) (λ rest. words.at + length rest.now < 2 ^ 63) };
}

fn first_place(text: &[u8], separator: u8) -> Option<usize>
    ensures place { result ≡ position (λ byte. byte == separator) text.now }
    ensures within { IfSome result (λ place. place < length text.now) }
{
    text.iter().position(|byte| *byte == separator)
}

/// What comes before the first separator, and what comes after it if there is one.
#[tactic(auto, using(crate::proofs::CutAtSeparator::parting))]
pub(crate) fn cut(text: &[u8], separator: u8) -> (&[u8], Option<&[u8]>)
    ensures parts { split_by separator text.now
        ≡ result.0.now ∷ option_map_or (λ rest. split_by separator rest.now) result.1 [] }
    ensures shorter { MatchOption result.1 (length result.0.now ≡ length text.now)
        (λ rest. length result.0.now + 1 + length rest.now ≡ length text.now) }
{
    match first_place(text, separator) {
        Some(end) => (&text[..end], Some(&text[end + 1..])),
        None => (text, None),
    }
}

impl<'a> Words<'a> {
    pub(crate) fn of(text: &'a [u8]) -> Self
        ensures { result ≡ words_from 0 text.now }
    {
        Words {
            at: 0,
            rest: Some(text),
        }
    }

    /// The next word.
    #[tactic(auto, using(crate::proofs::CutAtSeparator::cutting))]
    pub(crate) fn next(&mut self) -> Option<Word<'a>>
        ensures { MatchOption result (self.old ≡ [])
            (λ next. self.old ≡ word next.at next.bytes.now ∷ self.new) }
    {
        while let Some(text) = self.rest {
            let at = self.at;
            let (part, rest) = cut(text, SPACE);
            self.at += part.len() + 1;
            self.rest = rest;
            if !part.is_empty() {
                return Some(Word { at, bytes: part });
            }
        }
        None
    }

    /// The next word, which must be there.
    pub(crate) fn required(&mut self) -> Result<Word<'a>, QueryFault>
        ensures ok { IfOk result (λ next. self.old ≡ word next.at next.bytes.now ∷ self.new) }
        ensures err { IfErr result (λ fault. (fault ≡ QueryFault.Incomplete) × (self.old ≡ [])) }
        ensures later { OnOk result (IsLater self.old self.new) }
    {
        self.next().ok_or(QueryFault::Incomplete)
    }

    /// The word after this one, both of which must be there.
    pub(crate) fn after(&mut self, first: &[u8]) -> Result<Word<'a>, QueryFault>
        ensures ok { IfOk result (λ next. (leads : _ → Next) → read_from (text first.now (needs leads)) self.old
            ≡ read_from (leads (word next.at next.bytes.now)) self.new) }
        ensures err { IfErr result (λ fault. (fault ≢ QueryFault.OutOfMemory)
            × ((leads : _ → Next) → read_from (text first.now (needs leads)) self.old ≡ Err fault)) }
        ensures later { OnOk result (IsLater self.old self.new) }
        ensures listed { OnOk result (first.now ≡ codes "in" → begins_list self.old ≡ true) }
    {
        let word = self.required()?;
        if !word.is(first) {
            return Err(QueryFault::UnknownWord { at: word.at });
        }
        self.required()
    }

    /// The time after this word.
    pub(crate) fn time_after(&mut self, first: &[u8]) -> Result<u32, QueryFault>
        ensures ok { IfOk result (λ time. (leads : ℕ → Next)
            → read_from (text first.now (timed leads)) self.old ≡ read_from (leads time) self.new) }
        ensures small { IfOk result (λ time. time ≤ SECONDS_OF_DAY) }
        ensures err { IfErr result (λ fault. (fault ≢ QueryFault.OutOfMemory)
            × ((leads : ℕ → Next) → read_from (text first.now (timed leads)) self.old ≡ Err fault)) }
        ensures later { OnOk result (IsLater self.old self.new) }
    {
        let word = self.after(first)?;
        time_of(word.bytes).ok_or(QueryFault::BadTime { at: word.at })
    }

    /// Whether this word comes next, and not the end.
    pub(crate) fn follows(&mut self, link: &[u8]) -> Result<bool, QueryFault>
        ensures ok { IfOk result (λ more. (said : Said) → read_from (linked link.now said) self.old
            ≡ (if more then read_from (condition said) self.new else Ok (meaning_of said))) }
        ensures err { IfErr result (λ fault. (fault ≢ QueryFault.OutOfMemory)
            × ((said : Said) → read_from (linked link.now said) self.old ≡ Err fault)) }
        ensures later { IfOk result (λ more. more ≡ true → IsLater self.old self.new) }
    {
        match self.next() {
            None => Ok(false),
            Some(word) if word.is(link) => Ok(true),
            Some(word) => Err(QueryFault::UnknownWord { at: word.at }),
        }
    }

    /// The time after `as of`, if `as` comes next.
    pub(crate) fn moment(&mut self) -> Result<Option<u32>, QueryFault>
        ensures ok { IfOk result (λ as_of. (what : _) → read_from (moment (only what)) self.old
            ≡ read_from (linked (codes "where") (record (only what) { as_of = as_of })) self.new) }
        ensures small { IfOk result (λ as_of. IfSome as_of (λ time. time ≤ SECONDS_OF_DAY)) }
        ensures err { IfErr result (λ fault. (fault ≢ QueryFault.OutOfMemory)
            × ((what : _) → read_from (moment (only what)) self.old ≡ Err fault)) }
        ensures listed { OnOk result (lists_symbols self.new ≡ true → lists_symbols self.old ≡ true) }
    {
        let mut ahead = Words {
            at: self.at,
            rest: self.rest,
        };
        match ahead.next() {
            Some(word) if word.is(b"as") => *self = ahead,
            _ => return Ok(None),
        }
        Ok(Some(self.time_after(b"of")?))
    }
}

impl Word<'_> {
    /// Whether the word is the text.
    pub(crate) fn is(&self, text: &[u8]) -> bool
        ensures { result ≡ reads_as text.now (word self.now.at self.now.bytes.now) }
    {
        self.bytes == text
    }
}
