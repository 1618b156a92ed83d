//! A body while it is written.

ghost use Rattle.std.specs.Prelude.{◌≡◌, ◌+◌, ◌≤◌, [], ◌++◌, length};
ghost use Rattle.itch_messages.specs.Layout.{number_bytes};

use std::marker::Model;

/// The length of the longest body, in bytes: a trade's.
const LONGEST_BODY: usize = 44;

/// The bytes of a body so far, at most `LONGEST_BODY`.
#[derive(Drop)]
pub struct Draft {
    bytes: [u8; LONGEST_BODY],
    len: usize,
}

impl Model for Draft {
    ghost use Rattle.std.specs.Prelude.{◌≤◌, List, ℕ, take};

    ghost Value = { List ℕ };

    ghost view = { λ d. take d.len d.bytes };

    ghost invariant = { λ d. d.len ≤ 44 };
}

impl Draft {
    /// Nothing is written.
    pub fn new() -> Draft
        ensures { result ≡ [] }
    {
        Draft {
            bytes: [0; LONGEST_BODY],
            len: 0,
        }
    }

    /// Writes the bytes after those before.
    pub fn put(&mut self, bytes: &[u8])
        requires { length self.old + length bytes.now ≤ 44 }
        ensures items { self.new ≡ self.old ++ bytes.now }
        ensures len { length self.new ≡ length self.old + length bytes.now }
    {
        let end = self.len + bytes.len();
        self.bytes[self.len..end].copy_from_slice(bytes);
        self.len = end;
    }

    /// Writes the low `width` bytes of a number, the highest first.
    #[tactic(auto, using(crate::proofs::Numbers::low_bytes), unfolding(crate::specs::Layout::number_bytes))]
    pub fn put_number(&mut self, width: usize, number: u64)
        requires width { width ≤ 8 }
        requires room { length self.old + width ≤ 44 }
        ensures items { self.new ≡ self.old ++ number_bytes width number }
        ensures len { length self.new ≡ length self.old + width }
    {
        self.put(&number.to_be_bytes()[8 - width..]);
    }

    /// The bytes that are written.
    pub fn bytes(&self) -> &[u8]
        ensures value { result.now ≡ self.now }
        ensures short { length result.now ≤ 44 }
    {
        &self.bytes[..self.len]
    }
}
