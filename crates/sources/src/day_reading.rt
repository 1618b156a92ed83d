//! Reading a whole day file from a source.
ghost use Rattle.std.specs.Prelude.{◌≡◌, ◌≤◌, ◌<◌, ◌+◌, ◌^◌, ◌++◌, ℕ, List, Err, length, false, IfErr, IfOk, OnOk, vec_len};
ghost use Rattle.sources.specs.Given.{GaveSome, IsDayRead};

use crate::{DayFile, DeviceFailed, LONGEST_FILE, OutOfMemory, Source};
use std::alloc::Allocator;

/// The most bytes that one call asks of a source.
const LARGEST_PIECE: u64 = 65_536;

/// Why a day file could not be read from a source.
#[derive(Clone, Copy, PartialEq, Eq)]
pub enum ReadFault {
    /// A call of the source failed.
    ReadFailed,
    /// The source gave more bytes than the limit.
    TooLong,
    /// The vector of the bytes found no memory to grow in.
    OutOfMemory,
}

impl From<OutOfMemory> for ReadFault {
    ghost use Rattle.sources.specs.declared.day_reading.ReadFault.{ReadFault};

    ghost from_gives = { λ _ fault. fault ≡ ReadFault.OutOfMemory };

    fn from(_refused: OutOfMemory) -> ReadFault {
        ReadFault::OutOfMemory
    }
}

impl From<DeviceFailed> for ReadFault {
    ghost use Rattle.sources.specs.declared.day_reading.ReadFault.{ReadFault};

    ghost from_gives = { λ _ fault. fault ≡ ReadFault.ReadFailed };

    fn from(_failed: DeviceFailed) -> ReadFault {
        ReadFault::ReadFailed
    }
}

// Appends what one call of the source gives, at most this many bytes, and says how many those are.
#[tactic(auto, using(crate::proofs::Given::some_given))]
fn read_piece<S: Source, A: Allocator>(
    source: &mut S,
    bytes: &mut Vec<u8, A>,
    most: usize,
) -> Result<usize, ReadFault>
    requires whole { S.has_failed source.old ≡ false }
    requires room { 0 < most }
    requires fits { vec_len bytes.old + most < 2 ^ 63 }
    ensures piece { IfOk result (λ n. (piece : List ℕ) × S.Gave source.old source.new piece
        × (bytes.new.items ≡ bytes.old.items ++ piece) × (length piece ≡ n)) }
    ensures within { IfOk result (λ n. n ≤ most) }
    ensures end { IfOk result (λ n. n ≡ 0 → S.HasEnded source.new) }
    ensures whole { OnOk result (S.has_failed source.new ≡ false) }
    ensures fault { IfErr result (λ fault. (before : S) (limit : ℕ)
        → GaveSome S.Source limit before source.old → IsDayRead S.Source limit before source.new (Err fault)) }
{
    let start = bytes.len();
    bytes.resize(start + most, 0)?;
    let taken = source.take(&mut bytes[start..])?;
    bytes.truncate(start + taken);
    Ok(taken)
}

/// Reads a source of at most `limit` bytes to its end. It asks for at most `limit` + 1 bytes, in
/// pieces, and stops at the first call that fails.
pub fn read_day<S: Source, A: Allocator>(
    alloc: A,
    source: &mut S,
    limit: u64,
) -> Result<DayFile<A>, ReadFault>
    requires whole { S.has_failed source.old ≡ false }
    requires limit { limit ≤ LONGEST_FILE }
    ensures { IsDayRead S.Source limit source.old source.new result }
{
    let mut bytes = Vec::new(alloc);
    while bytes.len() as u64 <= limit {
        let room = (limit + 1 - bytes.len() as u64).min(LARGEST_PIECE);
        if read_piece(source, &mut bytes, room as usize)? == 0 {
            return Ok(DayFile::of_bytes(bytes));
        }
    }
    Err(ReadFault::TooLong)
}
