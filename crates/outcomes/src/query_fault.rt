//! Why a text is no query.

use thiserror::Error;

/// Why a text is no query; of several reasons, the first from the left. `at` is the number of bytes
/// that come before the word in the text.
#[derive(Clone, Copy, Debug, PartialEq, Eq, Error)]
pub enum QueryFault {
    /// A word that is not allowed there, a malformed list of symbols or kinds, or a word after the query's end.
    #[error("query byte {at}: unknown word")]
    UnknownWord { at: usize },
    /// The word after `bars` is no number of one to five digits; or, reported once the unit was
    /// read, the width isn't 1 to 86,400 seconds.
    #[error("query byte {at}: bad number")]
    BadNumber { at: usize },
    /// A word in a time's place is neither `HH:MM:SS` nor `24:00:00`.
    #[error("query byte {at}: bad time")]
    BadTime { at: usize },
    /// The first word of a condition that was given before.
    #[error("query byte {at}: condition given twice")]
    Repeated { at: usize },
    /// The text ends where a word must follow; so does an empty text.
    #[error("query ends too early")]
    Incomplete,
    /// The second time isn't past the first.
    #[error("query has an empty time range")]
    EmptyRange,
    /// There was no memory for the list of symbols.
    #[error("out of memory")]
    OutOfMemory,
}
