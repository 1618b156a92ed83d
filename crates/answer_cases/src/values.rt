//! What is changed of a case by turns.
use crate::case::range_of;
use std::alloc::Global;
use std::io;
use tests_support::{not_written_so, number, overwrite};

/// What has each of the values.
#[derive(Clone, Copy)]
pub(crate) enum Varied {
    /// The byte at this place.
    Byte(usize),
    /// The number of two bytes at this place.
    Pair(usize),
    /// How many bytes are left of the day.
    Length,
    /// The size of morsels.
    Morsel,
}

/// What has each of the values from the first to the last, by this step.
#[derive(Clone, Copy)]
pub(crate) struct Values {
    pub(crate) varied: Varied,
    pub(crate) first: u32,
    pub(crate) last: u32,
    pub(crate) step: u32,
}

/// The values of a text: `byte 2 0..255`, `pair 0 0..65535/31` (each 31st), `length 0..112`, `morsel 1..112`.
pub(crate) fn values_of(alloc: Global, text: &str) -> io::Result<Values> {
    let words: Vec<&str> = text.split_whitespace().collect(alloc)?;
    values_of_words(words.as_slice())
}

/// The values of the words of a text.
fn values_of_words(words: &[&str]) -> io::Result<Values> {
    let (varied, values) = match *words {
        ["byte", place, values] => (Varied::Byte(number(place)?), values),
        ["pair", place, values] => (Varied::Pair(number(place)?), values),
        ["length", values] => (Varied::Length, values),
        ["morsel", values] => (Varied::Morsel, values),
        _ => return Err(not_written_so()),
    };
    let (values, step) = values.split_once('/').unwrap_or((values, "1"));
    let (first, last) = range_of(values)?;
    Ok(Values {
        varied,
        first,
        last,
        step: number(step)?,
    })
}

impl Varied {
    /// The bytes of a day if this has the value.
    pub(crate) fn day(self, alloc: Global, day: &[u8], value: u32) -> io::Result<Vec<u8>> {
        let bytes = value.to_be_bytes();
        let mut changed = Vec::from_slice(alloc, day)?;
        match self {
            Varied::Byte(place) => overwrite(changed.as_mut_slice(), place, 0, &bytes[3..]),
            Varied::Pair(place) => overwrite(changed.as_mut_slice(), place, 0, &bytes[2..]),
            Varied::Length => changed.truncate(value as usize),
            Varied::Morsel => {}
        }
        Ok(changed)
    }

    /// The size of morsels if this has the value.
    pub(crate) fn morsel(self, value: u32) -> Option<u64> {
        match self {
            Varied::Morsel => Some(u64::from(value)),
            _ => None,
        }
    }
}
