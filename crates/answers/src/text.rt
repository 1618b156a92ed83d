//! The text of an answer.
ghost use Rattle.std.specs.Prelude.{◌≡◌};

use std::alloc::{Allocator, Global};
use std::marker::Model;

/// The text of an answer, in one vector.
#[derive(Drop)]
pub struct Text<A: Allocator = Global> {
    bytes: Vec<u8, A>,
}

impl<A: Allocator> Model for Text<A> {
    ghost use Rattle.std.specs.Prelude.{ℕ, List};

    ghost Value = { List ℕ };

    ghost view = { λ text. text.bytes.items };
}

impl<A: Allocator> Text<A> {
    /// The text of these bytes.
    pub fn of(bytes: Vec<u8, A>) -> Self
        ensures { result ≡ bytes.items }
    {
        Text { bytes }
    }

    /// Its bytes.
    pub fn bytes(&self) -> &[u8]
        ensures { result.now ≡ self.now }
    {
        self.bytes.as_slice()
    }
}
