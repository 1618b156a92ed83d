//! What one scan reads.
ghost use Rattle.std.specs.Prelude.{◌≡◌, ◌+◌, ◌<◌, ◌≤◌, IfOk, length, map};
ghost use Rattle.std.specs.Arc.{arc_value};
ghost use Rattle.std.specs.Cmp.{partial_equiv_from_equiv};
ghost use Rattle.std.specs.Cmp.Lexicographic.{pointwise};
ghost use Rattle.std.specs.Prelude.{nat_eq};
ghost use Rattle.base.specs.declared.limits.TheConstants.{LONGEST_FILE, MOST_PARTITIONS};
ghost use Rattle.scanning.specs.Scans.{bytes_of, input_equiv, is_same_input};

use crate::OutOfMemory;
use base::limits::{LONGEST_FILE, MOST_PARTITIONS};
use day_file::Morsel;
use std::alloc::Global;
use std::marker::Model;
use std::sync::Arc;

/// Neighbouring morsels, which are scanned as one, with its number and its place in the whole file, the moment up to
/// which messages count, and the number of partitions that the rows are kept in. The place is the number of bytes
/// before it, and the moment is in seconds since midnight; without one each message counts. Contracts see one morsel,
/// which has the bytes of all.
#[derive(Drop)]
pub struct ScanInput {
    morsels: Vec<Arc<Morsel, Global>>,
    size: u64,
    number: u32,
    start: u64,
    as_of: Option<u32>,
    parts: u32,
}

impl Model for ScanInput {
    ghost use Rattle.std.specs.Prelude.{◌≡◌, ◌+◌, ◌<◌, ◌≤◌, length, map};
    ghost use Rattle.std.specs.Arc.{arc_value};
    ghost use Rattle.base.specs.declared.limits.TheConstants.{LONGEST_FILE, MOST_PARTITIONS};
    ghost use Rattle.scanning.specs.Scans.{ScanInputView, bytes_of};

    ghost Value = { ScanInputView };

    ghost view = { λ a. record {
      morsel = record { number = a.number; start = a.start; bytes = bytes_of (map arc_value a.morsels.items) };
      as_of = a.as_of;
      parts = a.parts;
    } };

    ghost invariant = { λ a. (0 < a.parts) × (a.parts ≤ MOST_PARTITIONS)
        × (a.size ≡ length (bytes_of (map arc_value a.morsels.items)))
        × (a.start + length (bytes_of (map arc_value a.morsels.items)) ≤ LONGEST_FILE) };
}

impl ScanInput {
    /// The input of these morsels, which follow each other. It has this number in the whole file, and begins at this
    /// place: what numbers and places they have in their own cut, which may be of a part of the file, doesn't count.
    /// It shares them, and is refused if memory for the list of them is refused.
    pub fn of(
        alloc: Global,
        morsels: &[Arc<Morsel, Global>],
        number: u32,
        start: u64,
        as_of: Option<u32>,
        parts: u32,
    ) -> Result<Self, OutOfMemory>
        requires some { 0 < parts }
        requires most { parts ≤ MOST_PARTITIONS }
        requires within { start + length (bytes_of (map arc_value morsels.now)) ≤ LONGEST_FILE }
        ensures { IfOk result (λ input. input ≡ record {
          morsel = record { number = number; start = start; bytes = bytes_of (map arc_value morsels.now) };
          as_of = as_of;
          parts = parts;
        }) }
    {
        let mut shared = Vec::with_capacity(alloc, morsels.len())?;
        let mut size = 0;
        for morsel in morsels {
            shared.push(Arc::try_clone(morsel)?)?;
            size += morsel.bytes().len() as u64;
        }
        Ok(ScanInput {
            morsels: shared,
            size,
            number,
            start,
            as_of,
            parts,
        })
    }

    /// The morsels that are scanned as one, in their order.
    pub fn morsels(&self) -> &[Arc<Morsel, Global>]
        ensures bytes { bytes_of (map arc_value result.now) ≡ self.now.morsel.bytes }
        ensures within { self.now.morsel.start + length self.now.morsel.bytes ≤ LONGEST_FILE }
    {
        self.morsels.as_slice()
    }

    /// How many bytes come before them in the whole file.
    pub fn start(&self) -> u64
        ensures { result ≡ self.now.morsel.start }
    {
        self.start
    }

    /// How many bytes they have.
    pub fn length(&self) -> u64
        ensures { result ≡ length self.now.morsel.bytes }
    {
        self.size
    }

    /// The moment up to which messages count, in seconds since midnight.
    pub fn as_of(&self) -> Option<u32>
        ensures { result ≡ self.now.as_of }
    {
        self.as_of
    }

    /// How many partitions the rows are kept in.
    pub fn parts(&self) -> u32
        ensures value { result ≡ self.now.parts }
        ensures some { 0 < result }
        ensures most { result ≤ MOST_PARTITIONS }
    {
        self.parts
    }

    /// Whether the others have the same bytes, wherever one morsel ends and the next begins.
    fn has_bytes_of(&self, other: &ScanInput) -> bool
        ensures { result ≡ pointwise nat_eq self.now.morsel.bytes other.now.morsel.bytes }
    {
        let bytes = self.morsels.iter().flat_map(|morsel| morsel.bytes());
        let others = other.morsels.iter().flat_map(|morsel| morsel.bytes());
        bytes.cmp(others).is_eq()
    }
}

/// Inputs are equal if the numbers, places and bytes of their morsels are, their moments and their numbers
/// of partitions.
impl PartialEq for ScanInput {
    ghost eq = { is_same_input };

    ghost laws = { partial_equiv_from_equiv input_equiv };

    fn eq(&self, other: &ScanInput) -> bool {
        self.number == other.number
            && self.start == other.start
            && self.has_bytes_of(other)
            && self.as_of == other.as_of
            && self.parts == other.parts
    }
}

impl Eq for ScanInput {
    ghost laws = { input_equiv };
}
