//! A day file in memory.
ghost use Rattle.std.specs.Prelude.{◌≡◌, ◌≤◌, length, vec_len};

use crate::LONGEST_FILE;
use std::alloc::{Allocator, Global};
use std::marker::Model;

/// A day file in memory, seen as its bytes, of which there are at most `LONGEST_FILE`.
#[derive(Drop)]
pub struct DayFile<A: Allocator = Global> {
    bytes: Vec<u8, A>,
}

impl<A: Allocator> Model for DayFile<A> {
    ghost use Rattle.std.specs.Prelude.{ℕ, List, ◌≤◌, vec_len};
    ghost use Rattle.base.specs.declared.limits.TheConstants.{LONGEST_FILE};

    ghost Value = { List ℕ };

    ghost view = { λ day. day.bytes.items };

    ghost invariant = { λ day. vec_len day.bytes ≤ LONGEST_FILE };
}

impl<A: Allocator> DayFile<A> {
    /// The day file of these bytes, without a copy.
    pub fn of_bytes(bytes: Vec<u8, A>) -> Self
        requires { vec_len bytes ≤ LONGEST_FILE }
        ensures { result ≡ bytes.items }
    {
        DayFile { bytes }
    }

    /// The file's bytes.
    pub fn bytes(&self) -> &[u8]
        ensures same { result.now ≡ self.now }
        ensures within { length result.now ≤ LONGEST_FILE }
    {
        &self.bytes
    }
}
