//! Some parts of a text that follow each other: made, and written.
ghost use Rattle.std.specs.Prelude.{◌≡◌, ◌+◌, ◌*◌, ◌<◌, ◌≤◌, ◌^◌, IfErr, IfOk, false, length, true};
ghost use Rattle.sinks.specs.TextParts.{are_texts, texts_in, together};
ghost use Rattle.sinks.specs.Written.{IsWritten, text_of};

use crate::delivering::{WriteFailed, put_pieces};
use crate::parts::Parts;
use crate::sink::Sink;
use base::OutOfMemory;
use std::alloc::Global;
use std::thread::{Promise, PromisedHandle};

/// The texts of some parts, if there was memory for them.
pub(crate) type Made = Result<Vec<Vec<u8>>, OutOfMemory>;

/// Some parts that follow each other, whose texts a thread makes.
#[derive(Drop)]
pub(crate) struct Share<'a, P> {
    pub(crate) parts: &'a P,
    pub(crate) first: usize,
    pub(crate) count: usize,
}

impl<'a, P: Parts> Promise<Made> for Share<'a, P> {
    ghost use Rattle.std.specs.Prelude.{◌≡◌, IfOk};
    ghost use Rattle.sinks.specs.TextParts.{are_texts, texts_in};

    ghost kept_by = { λ share made. IfOk made
        (λ texts. are_texts texts.items ≡ texts_in (P.texts share.parts.now) share.first share.count) };
}

/// A thread that makes the texts of some parts.
#[derive(Drop)]
pub(crate) struct Begun<'a, P: Parts> {
    pub(crate) thread: PromisedHandle<Made, Share<'a, P>>,
    pub(crate) count: usize,
    ghost counted: { thread.promise.count ≡ count },
}

/// A part has fewer bytes.
const MOST_BYTES: u64 = 1 << 39;

/// Makes the texts of `count` parts, from the part `first` on.
pub(crate) fn make_share<P: Parts>(alloc: Global, parts: &P, first: usize, count: usize) -> Made
    requires within { first + count ≤ length (P.texts parts.now) }
    requires few { length (P.texts parts.now) < 2 ^ 24 }
    ensures { IfOk result (λ texts. are_texts texts.items ≡ texts_in (P.texts parts.now) first count) }
{
    let mut texts = Vec::with_capacity(alloc, count)?;
    for number in 0..count {
        texts.push(parts.make(alloc, first + number)?)?;
    }
    Ok(texts)
}

/// Writes the texts of `count` parts, from the part `first` on, and says how many bytes they have. Those that there was
/// no memory for are written without.
pub(crate) fn put_share<P: Parts, K: Sink>(
    parts: &P,
    made: Made,
    first: usize,
    count: usize,
    sink: &mut K,
) -> Result<u64, WriteFailed>
    requires made { IfOk made (λ texts. are_texts texts.items ≡ texts_in (P.texts parts.now) first count) }
    requires within { first + count ≤ length (P.texts parts.now) }
    requires few { length (P.texts parts.now) < 2 ^ 24 }
    requires whole { K.has_failed sink.old ≡ false }
    ensures written { IsWritten K.Sink sink.old sink.new (together (texts_in (P.texts parts.now) first count)) result }
    ensures count { IfOk result (λ written. written ≡ length (together (texts_in (P.texts parts.now) first count))) }
    ensures short { IfOk result (λ written. written ≤ count * 2 ^ 39) }
    ensures short_failed { IfErr result (λ failed. failed.written ≤ count * 2 ^ 39) }
{
    if let Ok(texts) = made {
        if is_short(texts.as_slice(), count) {
            return put_pieces(sink, texts.as_slice());
        }
    }
    put_slowly(parts, first, count, sink)
}

/// Whether these texts have no more bytes than `count` parts may have.
fn is_short(texts: &[Vec<u8>], count: usize) -> bool
    requires { count < 2 ^ 24 }
    ensures { result ≡ true → length (text_of texts.now) ≤ count * 2 ^ 39 }
{
    let mut bytes = 0u64;
    for text in texts {
        bytes = bytes.saturating_add(text.len() as u64);
    }
    bytes <= count as u64 * MOST_BYTES
}

/// Writes the texts of `count` parts, from the part `first` on, in no memory, and says how many bytes they have.
fn put_slowly<P: Parts, K: Sink>(
    parts: &P,
    first: usize,
    count: usize,
    sink: &mut K,
) -> Result<u64, WriteFailed>
    requires within { first + count ≤ length (P.texts parts.now) }
    requires few { length (P.texts parts.now) < 2 ^ 24 }
    requires whole { K.has_failed sink.old ≡ false }
    ensures written { IsWritten K.Sink sink.old sink.new (together (texts_in (P.texts parts.now) first count)) result }
    ensures count { IfOk result (λ written. written ≡ length (together (texts_in (P.texts parts.now) first count))) }
    ensures short { IfOk result (λ written. written ≤ count * 2 ^ 39) }
    ensures short_failed { IfErr result (λ failed. failed.written ≤ count * 2 ^ 39) }
{
    let mut written = 0;
    for number in 0..count {
        match parts.put(first + number, sink) {
            Ok(bytes) => written += bytes,
            Err(refused) => return Err(WriteFailed {
                written: written + refused.written,
            }),
        }
    }
    Ok(written)
}
