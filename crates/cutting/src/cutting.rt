//! How a day file that is whole in memory is cut, by a target or at given places.
ghost use Rattle.std.specs.Prelude.{◌≡◌, ◌≤◌, ◌<◌, ◌↔◌, ◌∷◌, [], ℕ, List, length, take, IfOk, IfErr, IfSome, IsNone, IsTrue};
ghost use Rattle.day_file.specs.Frames.{IsWhole};
ghost use Rattle.cutting.specs.Cutting.{AreEnds, IsCutAt, IsCutAtFault, IsCutBy, IsCutFault, IsFirstBad};

use crate::OutOfMemory;
use crate::runs::{count_runs, run_at};
use base::limits::{LONGEST_FILE, MOST_MORSELS};
use day_file::{Cut, DayFile, Truncated, check};
use std::alloc::{Allocator, Global};

/// Why a day file has no cut.
#[derive(Clone, Copy, Debug, PartialEq, Eq)]
pub enum CutFault {
    /// The file is truncated at this place.
    Truncated { place: u64 },
    /// This end isn't greater than the one before it, or no frame begins there.
    NotABoundary { end: u64 },
    /// There would be more than `MOST_MORSELS` morsels.
    TooManyMorsels,
    /// There was no memory for the morsels.
    OutOfMemory,
}

impl From<OutOfMemory> for CutFault {
    ghost use Rattle.cutting.specs.declared.cutting.CutFault.{CutFault};

    ghost from_gives = { λ _ fault. fault ≡ CutFault.OutOfMemory };

    fn from(_refused: OutOfMemory) -> CutFault {
        CutFault::OutOfMemory
    }
}

impl From<Truncated> for CutFault {
    ghost use Rattle.cutting.specs.declared.cutting.CutFault.{CutFault};

    ghost from_gives = { λ truncated fault. fault ≡ CutFault.Truncated truncated.place };

    fn from(truncated: Truncated) -> CutFault {
        CutFault::Truncated {
            place: truncated.place,
        }
    }
}

/// Cuts the file into morsels, each the shortest run of frames that has at least `target` bytes, or
/// the rest. All faults of the file are reported before memory is taken.
pub fn cut<A: Allocator>(alloc: Global, file: &DayFile<A>, target: u64) -> Result<Cut, CutFault>
    requires { 0 < target }
    ensures cut { IfOk result (λ cut. IsCutBy target cut file.now) }
    ensures fault { IfErr result (λ fault. IsCutFault target file.now fault) }
{
    let bytes = file.bytes();
    if count_runs(bytes, target)? > MOST_MORSELS.into() {
        return Err(CutFault::TooManyMorsels);
    }
    make_cut(alloc, bytes, target)
}

// The cut of these bytes, of which there is one with few morsels.
#[tactic(auto, using(crate::proofs::CutsBy::begun))]
fn make_cut(alloc: Global, bytes: &[u8], target: u64) -> Result<Cut, CutFault>
    requires limit { length bytes.now ≤ LONGEST_FILE }
    requires target { 0 < target }
    requires few { (runs : List (List ℕ)) × IsCutBy target runs bytes.now × (length runs ≤ MOST_MORSELS) }
    ensures cut { IfOk result (λ cut. IsCutBy target cut bytes.now) }
    ensures fault { IfErr result (IsCutFault target bytes.now) }
{
    let mut cut = Cut::empty(alloc);
    let mut start = 0;
    while start < bytes.len() {
        let length = run_at(bytes, start, target)?;
        let run = Vec::from_slice(alloc, &bytes[start..start + length])?;
        let Ok(()) = cut.append(alloc, run) else {
            return Err(CutFault::OutOfMemory);
        };
        start += length;
    }
    Ok(cut)
}

/// Cuts the file at these places: the ends of all morsels but the last. All other faults are reported before memory is
/// taken, a truncated file before a bad end, and that before too many morsels.
pub fn cut_at<A: Allocator>(alloc: Global, file: &DayFile<A>, ends: &[u64]) -> Result<Cut, CutFault>
    ensures cut { IfOk result (λ cut. IsCutAt ends.now cut file.now) }
    ensures fault { IfErr result (λ fault. IsCutAtFault ends.now file.now fault) }
{
    check(file)?;
    let bytes = file.bytes();
    if let Some(end) = first_bad(bytes, ends) {
        return Err(CutFault::NotABoundary { end });
    }
    if ends.len() >= MOST_MORSELS as usize {
        return Err(CutFault::TooManyMorsels);
    }
    Ok(make_at(alloc, bytes, ends)?)
}

// The first of these ends that isn't greater than the one before it, or where no frame stands.
fn first_bad(bytes: &[u8], ends: &[u64]) -> Option<u64>
    requires limit { length bytes.now ≤ LONGEST_FILE }
    requires whole { IsWhole bytes.now }
    ensures good { IsNone result → AreEnds bytes.now 0 ends.now }
    ensures bad { IfSome result (λ end. IsFirstBad bytes.now 0 ends.now end) }
{
    let mut start = 0;
    for end in ends {
        if !is_end(bytes, start, *end) {
            return Some(*end);
        }
        start = *end;
    }
    None
}

// Whether this end is greater than `start`, where a frame stands or the bytes begin, and a frame stands there.
#[tactic(auto, using(crate::proofs::CutsAt::end_told))]
fn is_end(bytes: &[u8], start: u64, end: u64) -> bool
    requires limit { length bytes.now ≤ LONGEST_FILE }
    requires whole { IsWhole bytes.now }
    requires front { IsWhole (take start bytes.now) }
    ensures { IsTrue result ↔ AreEnds bytes.now start (end ∷ []) }
{
    if end <= start || end >= bytes.len() as u64 {
        return false;
    }
    match run_at(bytes, start as usize, end - start) {
        Ok(length) => length as u64 == end - start,
        Err(_) => false,
    }
}

// The cut of these bytes at these places.
fn make_at(alloc: Global, bytes: &[u8], ends: &[u64]) -> Result<Cut, OutOfMemory>
    requires limit { length bytes.now ≤ LONGEST_FILE }
    requires whole { IsWhole bytes.now }
    requires ends { AreEnds bytes.now 0 ends.now }
    requires few { length ends.now < MOST_MORSELS }
    ensures { IfOk result (λ cut. IsCutAt ends.now cut bytes.now) }
{
    let mut cut = Cut::empty(alloc);
    let mut start = 0;
    for end in ends {
        let end = *end as usize;
        cut.append(alloc, Vec::from_slice(alloc, &bytes[start..end])?)?;
        start = end;
    }
    cut.append_rest(alloc, Vec::from_slice(alloc, &bytes[start..])?)?;
    Ok(cut)
}
