//! Bytes that are read in at the end and taken off the front.
ghost use Rattle.std.specs.Prelude.{◌≡◌, ◌≤◌, ◌<◌, ◌+◌, ◌-◌, ◌++◌, ◌∷◌, ◌↔◌, ℕ, List, [], length, take, drop, Err, IfErr, IfOk, IsErrOf, OnErr, OnOk, false, true, vec_len};
ghost use Rattle.std.specs.List.{concat};
ghost use Rattle.base.specs.declared.limits.TheConstants.{LONGEST_FILE, MOST_MORSELS};
ghost use Rattle.day_file.specs.Cuts.{IsRun};
ghost use Rattle.sources.specs.Given.{IsDayRead};

use crate::OutOfMemory;
use base::limits::{LONGEST_FILE, MOST_MORSELS};
use day_file::Cut;
use sources::{ReadFault, Source};
use std::alloc::{AllocError, Global};
use std::marker::Model;
use std::mem;

/// The most bytes that one call asks of a source.
const PIECE: usize = 65_536;

/// Bytes that are read in at the end and taken off the front. Contracts see those that are left; the vector begins with
/// those that were taken, and ends with bytes of any value in whose place the next ones are read.
#[derive(Drop)]
pub(crate) struct Rest {
    bytes: Vec<u8>,
    start: usize,
    end: usize,
}

impl Model for Rest {
    ghost use Rattle.std.specs.Prelude.{◌≤◌, ℕ, List, drop, take, vec_len};

    ghost Value = { List ℕ };

    ghost view = { λ r. drop r.start (take r.end r.bytes.items) };

    ghost invariant = { λ r. (r.start ≤ r.end) × (r.end ≤ vec_len r.bytes) };
}

impl Rest {
    // No bytes.
    pub(crate) fn empty(alloc: Global) -> Self
        ensures { result ≡ [] }
    {
        Rest {
            bytes: Vec::new(alloc),
            start: 0,
            end: 0,
        }
    }

    // The bytes that are left.
    pub(crate) fn as_slice(&self) -> &[u8]
        ensures { result.now ≡ self.now }
    {
        &self.bytes[self.start..self.end]
    }

    // The bytes that are left, without a copy and without more room.
    pub(crate) fn into_bytes(self) -> Vec<u8>
        ensures { result.items ≡ self }
    {
        let Rest {
            mut bytes,
            start,
            end,
        } = self;
        bytes.truncate(end);
        remove_front(&mut bytes, start);
        bytes.shrink_to_fit();
        bytes
    }

    // Appends what one call of the source gives, and says how many bytes those are. It asks for at most `left` and one
    // more, which would be too many.
    #[tactic(auto, using(sources::proofs::Given::some_given))]
    pub(crate) fn read_from<S: Source>(
        &mut self,
        source: &mut S,
        left: u64,
    ) -> Result<usize, ReadFault>
        requires whole { S.has_failed source.old ≡ false }
        requires left { length self.old + left ≤ LONGEST_FILE }
        ensures piece { IfOk result (λ n. (piece : List ℕ) × S.Gave source.old source.new piece
            × (self.new ≡ self.old ++ piece) × (length piece ≡ n)) }
        ensures within { IfOk result (λ n. n ≤ left) }
        ensures end { IfOk result (λ n. n ≡ 0 → S.HasEnded source.new) }
        ensures same { OnErr result (self.new ≡ self.old) }
        ensures fault { IfErr result (λ fault. (before : S) (bytes : List ℕ) (limit : ℕ)
            → S.Gave before source.old bytes → length bytes + left ≡ limit
            → IsDayRead S.Source limit before source.new (Err fault)) }
        ensures failed { IsErrOf result ReadFault.ReadFailed ↔ (S.has_failed source.new ≡ true) }
    {
        let most = (left + 1).min(PIECE as u64) as usize;
        self.to_front();
        lengthen(&mut self.bytes, self.end + most)?;
        let taken = source.take(&mut self.bytes[self.end..self.end + most])?;
        if taken as u64 > left {
            return Err(ReadFault::TooLong);
        }
        self.end += taken;
        Ok(taken)
    }

    // Moves the bytes that are left to the vector's front.
    fn to_front(&mut self)
        ensures { self.new ≡ self.old }
    {
        if self.start > 0 {
            self.bytes.copy_within(self.start..self.end, 0);
            self.end -= self.start;
            self.start = 0;
        }
    }

    // Takes `count` bytes off the front.
    pub(crate) fn skip(&mut self, count: usize)
        requires { count ≤ length self.old }
        ensures { self.new ≡ drop count self.old }
    {
        self.start += count;
    }

    // Takes the run that ends there off the front, and adds it to the cut. It is copied, or if it is the larger part of
    // the vector, what is behind it, into one of the spare vectors, if there is one.
    pub(crate) fn take_run(
        &mut self,
        alloc: Global,
        cut: &mut Cut,
        spares: &mut Vec<Vec<u8>>,
        end: usize,
    ) -> Result<(), OutOfMemory>
        requires within { end ≤ length self.old }
        requires run { IsRun (take end self.old) }
        requires few { length cut.old < MOST_MORSELS }
        requires room { length (concat cut.old) + length self.old ≤ LONGEST_FILE }
        ensures cut { OnOk result (cut.new ≡ cut.old ++ take end self.old ∷ []) }
        ensures rest { OnOk result (self.new ≡ drop end self.old) }
        ensures same { OnErr result ((cut.new ≡ cut.old) × (self.new ≡ self.old)) }
    {
        let length = self.end;
        if self.start > 0 || end <= length / 2 {
            cut.append(alloc, Vec::from_slice(alloc, &self.as_slice()[..end])?)?;
            self.start += end;
            return Ok(());
        }
        // The next run takes about as much as this one, and the rest of the piece in which it ends.
        let behind = vector_of(alloc, spares, length, end + PIECE)?;
        take_front(alloc, &mut self.bytes, cut, behind, length, end)?;
        self.end = length - end;
        Ok(())
    }
}

// Adds the first `end` of the vector's `count` bytes to the cut as a run, without a copy. The vector is then `behind`,
// and begins with the bytes after those. If there is no memory for the run, its bytes are put back.
fn take_front(
    alloc: Global,
    bytes: &mut Vec<u8>,
    cut: &mut Cut,
    behind: Vec<u8>,
    count: usize,
    end: usize,
) -> Result<(), OutOfMemory>
    requires within { (end ≤ count) × (count ≤ vec_len bytes.old) × (count ≤ vec_len behind) }
    requires run { IsRun (take end bytes.old.items) }
    requires few { length cut.old < MOST_MORSELS }
    requires short { length (concat cut.old) + count ≤ LONGEST_FILE }
    ensures cut { OnOk result (cut.new ≡ cut.old ++ take end bytes.old.items ∷ []) }
    ensures left { OnOk result (take (count - end) bytes.new.items ≡ drop end (take count bytes.old.items)) }
    ensures same { OnErr result ((cut.new ≡ cut.old)
        × (take count bytes.new.items ≡ take count bytes.old.items)) }
    ensures room { count ≤ vec_len bytes.new }
{
    let run = split(bytes, count, end, behind);
    if let Err(refused) = cut.append(alloc, run) {
        join(bytes, &refused.value, count - end);
        return Err(AllocError);
    }
    Ok(())
}

// Removes the bytes before this place.
fn remove_front(bytes: &mut Vec<u8>, start: usize)
    requires { start ≤ vec_len bytes.old }
    ensures { bytes.new.items ≡ drop start bytes.old.items }
{
    if start == 0 {
        return;
    }
    let left = bytes.len() - start;
    bytes.copy_within(start.., 0);
    bytes.truncate(left);
}

// Makes the vector at least this long.
fn lengthen(bytes: &mut Vec<u8>, least: usize) -> Result<(), OutOfMemory>
    ensures front { take (length bytes.old.items) bytes.new.items ≡ bytes.old.items }
    ensures long { OnOk result (least ≤ vec_len bytes.new) }
    ensures same { OnErr result (bytes.new.items ≡ bytes.old.items) }
{
    if bytes.len() < least {
        bytes.resize(least, 0)?;
    }
    Ok(())
}

// A vector that is at least this long: one of the spare ones, or a new one, which has this room.
fn vector_of(
    alloc: Global,
    spares: &mut Vec<Vec<u8>>,
    length: usize,
    room: usize,
) -> Result<Vec<u8>, OutOfMemory>
    ensures { IfOk result (λ bytes. length ≤ vec_len bytes) }
{
    let mut bytes = match spares.pop() {
        Some(spare) => spare,
        None => Vec::with_capacity(alloc, room)?,
    };
    lengthen(&mut bytes, length)?;
    Ok(bytes)
}

// Takes the first `end` of the vector's `length` bytes out of it, without a copy. The vector is then `behind`, and
// begins with the bytes after those.
#[tactic(auto, using(crate::proofs::Fed::written_over))]
fn split(bytes: &mut Vec<u8>, length: usize, end: usize, behind: Vec<u8>) -> Vec<u8>
    requires within { end ≤ length }
    requires length { length ≤ vec_len bytes.old }
    requires room { length ≤ vec_len behind }
    ensures run { result.items ≡ take end bytes.old.items }
    ensures left { take (length - end) bytes.new.items ≡ drop end (take length bytes.old.items) }
    ensures room { length ≤ vec_len bytes.new }
{
    let mut run = mem::replace(bytes, behind);
    overwrite(bytes, &run[end..length]);
    run.truncate(end);
    shrink(&mut run);
    run
}

// Puts the run before the first `left` bytes of the vector.
fn join(bytes: &mut Vec<u8>, run: &[u8], left: usize)
    requires { length run.now + left ≤ vec_len bytes.old }
    ensures joined { take (length run.now + left) bytes.new.items ≡ run.now ++ take left bytes.old.items }
    ensures same { vec_len bytes.new ≡ vec_len bytes.old }
{
    bytes.copy_within(..left, run.len());
    overwrite(bytes, run);
}

// Writes the bytes over those at the front.
fn overwrite(front: &mut [u8], bytes: &[u8])
    requires { length bytes.now ≤ length front.old }
    ensures { front.new ≡ bytes.now ++ drop (length bytes.now) front.old }
{
    front[..bytes.len()].copy_from_slice(bytes);
}

// Gives back what room is behind the bytes, if it is more than an eighth of them.
fn shrink(bytes: &mut Vec<u8>)
    ensures { bytes.new.items ≡ bytes.old.items }
{
    if bytes.capacity() - bytes.len() > bytes.len() / 8 {
        bytes.shrink_to_fit();
    }
}
