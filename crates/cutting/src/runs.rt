//! Where the runs of frames end of which morsels are made.
ghost use Rattle.std.specs.Prelude.{◌≡◌, ◌≤◌, ◌<◌, ◌⊎◌, ℕ, List, length, take, drop, IfOk, IfErr};
ghost use Rattle.day_file.specs.Frames.{IsTruncatedAt, IsWhole};
ghost use Rattle.cutting.specs.Cutting.{IsCutBy, IsFirstRun};

use base::limits::LONGEST_FILE;
use day_file::{Frames, LENGTH_BYTES, Truncated};

/// Where the shortest run of frames at the head of these bytes that has at least `target` bytes ends,
/// or where all of them end. The first `whole` bytes, fewer than that, are known to be whole frames.
pub(crate) fn first_run(bytes: &[u8], whole: usize, target: u64) -> Result<usize, Truncated>
    requires limit { length bytes.now ≤ LONGEST_FILE }
    requires some { whole < length bytes.now }
    requires target { whole < target }
    requires front { IsWhole (take whole bytes.now) }
    ensures run { IfOk result (λ n. IsFirstRun target n bytes.now) }
    ensures truncated { IfErr result (λ fault. IsTruncatedAt bytes.now fault.place) }
    ensures below { IfErr result (λ fault. fault.place < target) }
{
    let mut left = Frames::of(whole as u64, &bytes[whole..]);
    let mut end = whole;
    // No `for`: after one over a borrowed iterator no clause says what is left, which `finish` needs.
    while let Some(frame) = left.next() {
        end += LENGTH_BYTES + frame.body.len();
        if end as u64 >= target {
            return Ok(end);
        }
    }
    left.finish()?;
    Ok(end)
}

// How long the first run of the bytes from this place on is, which come after whole frames.
pub(crate) fn run_at(bytes: &[u8], start: usize, target: u64) -> Result<usize, Truncated>
    requires limit { length bytes.now ≤ LONGEST_FILE }
    requires some { start < length bytes.now }
    requires target { 0 < target }
    requires whole { IsWhole (take start bytes.now) }
    ensures run { IfOk result (λ n. IsFirstRun target n (drop start bytes.now)) }
    ensures truncated { IfErr result (λ fault. IsTruncatedAt bytes.now fault.place) }
{
    match first_run(&bytes[start..], 0, target) {
        Ok(length) => Ok(length),
        Err(fault) => Err(Truncated {
            place: start as u64 + fault.place,
        }),
    }
}

/// How many runs `cut` makes of these bytes.
pub(crate) fn count_runs(bytes: &[u8], target: u64) -> Result<u64, Truncated>
    requires limit { length bytes.now ≤ LONGEST_FILE }
    requires target { 0 < target }
    ensures count { IfOk result (λ n. (runs : List (List ℕ))
        × IsCutBy target runs bytes.now × (length runs ≡ n)) }
    ensures few { IfOk result (λ n. n ≤ length bytes.now) }
    ensures truncated { IfErr result (λ fault. IsTruncatedAt bytes.now fault.place) }
{
    let mut start = 0;
    let mut count = 0;
    while start < bytes.len() {
        start += run_at(bytes, start, target)?;
        count += 1;
    }
    Ok(count)
}

/// Where the run that these bytes begin with ends, or otherwise how many bytes of whole frames they
/// begin with. The first `whole` are known to be whole frames: only what comes after those is looked at.
pub(crate) fn head_of(bytes: &[u8], whole: usize, target: u64) -> Result<usize, usize>
    requires limit { length bytes.now ≤ LONGEST_FILE }
    requires below { whole < target }
    requires within { whole ≤ length bytes.now }
    requires front { IsWhole (take whole bytes.now) }
    ensures run { IfOk result (λ end. IsFirstRun target end bytes.now × (target ≤ end)) }
    ensures open { IfErr result (λ end. IsWhole (take end bytes.now) × (end < target)
        × ((end ≡ length bytes.now) ⊎ IsTruncatedAt bytes.now end)) }
{
    if whole == bytes.len() {
        return Err(whole);
    }
    match first_run(bytes, whole, target) {
        Ok(end) if end as u64 >= target => Ok(end),
        Ok(end) => Err(end),
        Err(fault) => Err(fault.place as usize),
    }
}
