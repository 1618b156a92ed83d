//! A morsel: whole frames that follow each other.
ghost use Rattle.std.specs.Prelude.{◌≡◌, ◌≤◌, ◌+◌, None, length, vec_len};
ghost use Rattle.std.specs.Cmp.Rules.{comparing};
ghost use Rattle.std.proofs.Common.{rules};
ghost use Rattle.base.specs.Among.{AreBytes};
ghost use Rattle.day_file.specs.Frames.{StandsFrom};
ghost use Rattle.day_file.specs.Cuts.{IsRun, MorselView, is_same_morsel};
ghost use Rattle.day_file.specs.Walk.{frames_of};

use crate::Frames;
use base::limits::LONGEST_FILE;
use std::marker::Model;

/// One of the parts that a day file is cut into: one or more whole frames. Contracts see its number
/// in the cut, the number of bytes before it in the file, and its bytes.
#[derive(Drop)]
pub struct Morsel {
    number: u32,
    start: u64,
    bytes: Vec<u8>,
}

impl Model for Morsel {
    ghost use Rattle.std.specs.Prelude.{◌≤◌, ◌+◌, vec_len};
    ghost use Rattle.base.specs.declared.limits.TheConstants.{LONGEST_FILE};
    ghost use Rattle.day_file.specs.Cuts.{IsRun, MorselView};

    ghost Value = { MorselView };

    ghost view = { λ m. record { number = m.number; start = m.start; bytes = m.bytes.items } };

    ghost invariant = { λ m. IsRun m.bytes.items × (m.start + vec_len m.bytes ≤ LONGEST_FILE) };
}

impl Morsel {
    /// The morsel of these frames, without a copy.
    #[tactic(auto, using(crate::proofs::Kept::bytes_of_type))]
    pub fn of(number: u32, start: u64, bytes: Vec<u8>) -> Self
        requires run { IsRun bytes.items }
        requires within { start + vec_len bytes ≤ LONGEST_FILE }
        ensures same { result ≡ record { number = number; start = start; bytes = bytes.items } }
        ensures bytes { AreBytes bytes.items }
    {
        Morsel {
            number,
            start,
            bytes,
        }
    }

    /// Its number in its cut.
    pub fn number(&self) -> u32
        ensures { result ≡ self.now.number }
    {
        self.number
    }

    /// The number of bytes before it in the file.
    pub fn start(&self) -> u64
        ensures { result ≡ self.now.start }
    {
        self.start
    }

    /// Its bytes.
    pub fn bytes(&self) -> &[u8]
        ensures same { result.now ≡ self.now.bytes }
        ensures run { IsRun result.now }
        ensures within { self.now.start + length result.now ≤ LONGEST_FILE }
    {
        &self.bytes
    }

    /// Its bytes, without a copy.
    pub fn into_bytes(self) -> Vec<u8>
        ensures { result.items ≡ self.bytes }
    {
        self.bytes
    }

    /// Its frames in order, with their places in the file, without a copy of a body.
    pub fn frames(&self) -> Frames<'_>
        ensures stand { StandsFrom self.now.start result.frames self.now.bytes }
        ensures whole { result.truncated ≡ None }
        ensures walked { result.frames ≡ frames_of self.now }
    {
        Frames::of(self.start(), self.bytes())
    }
}

/// Morsels are equal if they have the same number, start and bytes.
impl PartialEq for Morsel {
    ghost eq = { is_same_morsel };

    ghost laws = { Prim.search (comparing, rules) };

    fn eq(&self, other: &Morsel) -> bool {
        self.number == other.number && self.start == other.start && self.bytes == other.bytes
    }
}

impl Eq for Morsel {
    ghost laws = { Prim.search (comparing, rules) };
}
