//! Sets of references of two bits each.
ghost use Rattle.std.specs.Prelude.{◌≡◌, ℕ, ◌<◌, IfOk, length, true};
ghost use Rattle.order_list.specs.Bits.{mask_of, may_have, word_of};

use crate::OutOfMemory;
use std::alloc::Global;
use std::marker::Model;

/// Spreads references over all bits of a word: the golden ratio's fraction, which is odd.
const SPREAD: u64 = 0x9e37_79b9_7f4a_7c15;

/// References by bits that several share: one that was put in is found, and so may be another one.
#[derive(Drop)]
pub(crate) struct ReferenceBits {
    words: Vec<u64>,
}

impl Model for ReferenceBits {
    ghost use Rattle.std.specs.Prelude.{ℕ, List, ◌<◌, length};

    ghost Value = { List ℕ };

    ghost view = { λ bits. bits.words.items };

    ghost invariant = { λ bits. 0 < length bits.words.items };
}

impl ReferenceBits {
    /// None, in `words` and one more. It is refused if there is no memory for them.
    pub(crate) fn new(alloc: Global, words: usize) -> Result<Self, OutOfMemory> {
        let words = vec![in alloc; 0u64; words.saturating_add(1)]?;
        Ok(ReferenceBits { words })
    }

    /// Puts a reference in.
    #[inline(always)]
    pub(crate) fn insert(&mut self, order_no: u64)
        ensures inserted { may_have self.new order_no ≡ true }
        ensures kept { (other : ℕ) → may_have self.old other ≡ true → may_have self.new other ≡ true }
    {
        let (word, mask) = self.seat(order_no);
        self.words[word] |= mask;
    }

    /// Whether the reference was put in, or others that have its bits.
    #[inline(always)]
    pub(crate) fn may_have(&self, order_no: u64) -> bool
        ensures { result ≡ may_have self.now order_no }
    {
        let (word, mask) = self.seat(order_no);
        self.words[word] & mask == mask
    }

    /// The word of a reference, and its bits in it.
    #[inline(always)]
    fn seat(&self, order_no: u64) -> (usize, u64)
        ensures word { result.0 ≡ word_of (length self.now) order_no }
        ensures has_word { result.0 < length self.now }
        ensures mask { result.1 ≡ mask_of (length self.now) order_no }
    {
        let spread = order_no.wrapping_mul(SPREAD);
        let product = u128::from(spread) * self.words.len() as u128;
        let mask = (1u64 << ((product >> 58) % 64)) | (1u64 << ((product >> 52) % 64));
        ((product >> 64) as usize, mask)
    }
}
