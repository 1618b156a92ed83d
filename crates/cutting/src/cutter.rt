//! How a day file is cut while it comes.
ghost use Rattle.std.specs.Prelude.{◌≡◌, ◌≤◌, ◌<◌, ◌+◌, ◌++◌, ◌⊎◌, ◌↔◌, [], ℕ, List, length, false, true, Err, IfErr, IfOk, IfSome, IsErrOf, IsNone, OnErr, OnOk, All};
ghost use Rattle.std.specs.List.{concat};
ghost use Rattle.base.specs.declared.limits.TheConstants.{MOST_MORSELS};
ghost use Rattle.cutting.specs.Cutting.{IsCutBy, IsCutFault, IsFirstRun};
ghost use Rattle.cutting.specs.Feeding.{HasFed, IsFullRun, IsTaken, fed_length};
ghost use Rattle.day_file.specs.Frames.{IsTruncatedAt, IsWhole};
ghost use Rattle.sources.specs.Given.{IsDayRead};

use crate::rest::Rest;
use crate::runs::{count_runs, head_of};
use crate::{CutFault, OutOfMemory};
use base::limits::{LONGEST_FILE, MOST_MORSELS};
use day_file::Cut;
use sources::{ReadFault, Source};
use std::alloc::Global;
use std::marker::Model;
use std::mem;
use std::sync::Arc;

/// The capacity of the smallest and of the largest vector that is used again, in bytes: small ones cost little, and
/// each large one would be one more that is held.
const LEAST_KEPT: usize = 65_536;

const MOST_KEPT: usize = 16 << 20;

/// Cuts a day file into morsels while it comes, in any pieces. It keeps no bytes of morsels that are
/// too many for a cut.
#[derive(Drop)]
pub struct Cutter {
    alloc: Global,
    target: u64,
    cut: Cut,
    past: u64,
    rest: Rest,
    whole: usize,
    spares: Vec<Vec<u8>>,
}

impl Model for Cutter {
    ghost use Rattle.cutting.specs.Feeding.{CutterView, IsCutting};

    ghost Value = { CutterView };

    ghost view = { λ c. record { target = c.target; cut = c.cut; past = c.past; rest = c.rest } };

    ghost invariant = { λ c.
        IsCutting (record { target = c.target; cut = c.cut; past = c.past; rest = c.rest }) c.whole };
}

impl Cutter {
    /// A cutter to which nothing was fed. Each of its morsels will be the shortest run of frames that
    /// has at least `target` bytes, or the rest.
    pub fn new(alloc: Global, target: u64) -> Self
        requires { 0 < target }
        ensures fed { HasFed result [] }
        ensures target { result.target ≡ target }
    {
        Cutter {
            alloc,
            target,
            cut: Cut::empty(alloc),
            past: 0,
            rest: Rest::empty(alloc),
            whole: 0,
            spares: Vec::new(alloc),
        }
    }

    /// How many bytes were fed.
    pub fn length(&self) -> u64
        ensures same { result ≡ fed_length self.now }
        ensures fed { (fed : List ℕ) → HasFed self.now fed → result ≡ length fed }
        ensures within { result ≤ LONGEST_FILE }
    {
        self.cut.length() + self.past + self.rest.as_slice().len() as u64
    }

    /// The morsels that it has cut so far and keeps, in order. They are the first ones of the cut that `finish` gives.
    pub fn cut_so_far(&self) -> &Cut
        ensures { result.now ≡ self.now.cut }
    {
        &self.cut
    }

    /// Takes the morsels that it has cut so far out of it, and goes on as a cutter to which only the bytes after them
    /// were fed. It gives none, and keeps all, if there were more full runs than a cut may have.
    pub fn take_cut(&mut self) -> Option<Cut>
        ensures taken { IfSome result (λ cut. cut ≡ self.old.cut) }
        ensures full { IfSome result (λ cut. All (IsFullRun self.old.target) cut) }
        ensures fed { IfSome result (λ cut. (fed : List ℕ) → HasFed self.old fed
            → (rest : List ℕ) × (fed ≡ concat cut ++ rest) × HasFed self.new rest) }
        ensures none { IsNone result → (self.new ≡ self.old) × (MOST_MORSELS ≤ length self.old.cut) }
        ensures target { self.new.target ≡ self.old.target }
        ensures length { IfSome result (λ cut.
            fed_length self.old ≡ length (concat cut) + fed_length self.new) }
    {
        if self.past > 0 {
            return None;
        }
        Some(mem::replace(&mut self.cut, Cut::empty(self.alloc)))
    }

    /// Takes the next bytes of the file: what one call of the source gives, and says how many that are. It asks for at
    /// most 65,536 bytes, and for no more than `left` and one, which would be too many. After a refusal the cutter has
    /// the same bytes as before.
    pub fn feed<S: Source>(&mut self, source: &mut S, left: u64) -> Result<usize, ReadFault>
        requires whole { S.has_failed source.old ≡ false }
        requires left { fed_length self.old + left ≤ LONGEST_FILE }
        ensures fed { IfOk result (λ count. (piece : List ℕ) × (length piece ≡ count)
            × S.Gave source.old source.new piece
            × ((fed : List ℕ) → HasFed self.old fed → HasFed self.new (fed ++ piece))) }
        ensures within { IfOk result (λ count. count ≤ left) }
        ensures end { IfOk result (λ count. count ≡ 0 → S.HasEnded source.new) }
        ensures same { OnErr result ((fed : List ℕ) → HasFed self.old fed → HasFed self.new fed) }
        ensures target { self.new.target ≡ self.old.target }
        ensures fault { IfErr result (λ fault. (before : S) (bytes : List ℕ) (limit : ℕ)
            → S.Gave before source.old bytes → length bytes + left ≡ limit
            → IsDayRead S.Source limit before source.new (Err fault)) }
        ensures failed { IsErrOf result ReadFault.ReadFailed ↔ (S.has_failed source.new ≡ true) }
    {
        self.cut_off()?;
        self.rest.read_from(source, left)
    }

    /// Takes the vectors of the morsels of a cut that nobody else holds, so that the next morsels stand in them.
    pub fn reuse(&mut self, cut: Cut)
        ensures { self.new ≡ self.old }
    {
        self.spares.clear();
        append_vectors(&mut self.spares, cut);
    }

    /// The cut of all bytes that were fed, or why there is none: the same as `cut` gives of them.
    pub fn finish(mut self) -> Result<Cut, CutFault>
        ensures cut { IfOk result (λ cut. (fed : List ℕ) → HasFed self fed → IsCutBy self.target cut fed) }
        ensures fault { IfErr result (λ fault. (fed : List ℕ) → HasFed self fed → IsCutFault self.target fed fault) }
    {
        self.count_all()?;
        self.cut_off()?;
        let Cutter {
            alloc,
            mut cut,
            rest,
            ..
        } = self;
        cut.append_rest(alloc, rest.into_bytes())?;
        Ok(cut)
    }

    // Whether all that was fed has a cut of no more runs than a cut may have.
    fn count_all(&self) -> Result<(), CutFault>
        ensures few { OnOk result ((fed : List ℕ) → HasFed self.now fed
            → (runs : List (List ℕ)) × IsCutBy self.now.target runs fed × (length runs ≤ MOST_MORSELS)) }
        ensures fault { IfErr result (λ fault. (fed : List ℕ) → HasFed self.now fed
            → IsCutFault self.now.target fed fault) }
    {
        let more = match count_runs(self.rest.as_slice(), self.target) {
            Ok(more) => more,
            Err(fault) => {
                let ended = self.cut.length() + self.past;
                return Err(CutFault::Truncated {
                    place: ended + fault.place,
                });
            }
        };
        if self.past > 0 || u64::from(self.cut.count()) + more > MOST_MORSELS.into() {
            return Err(CutFault::TooManyMorsels);
        }
        Ok(())
    }

    // Takes all full runs off the rest.
    fn cut_off(&mut self) -> Result<(), OutOfMemory>
        ensures fed { (fed : List ℕ) → HasFed self.old fed → HasFed self.new fed }
        ensures target { self.new.target ≡ self.old.target }
        ensures length { fed_length self.new ≡ fed_length self.old }
        ensures rest { OnOk result ((IsWhole self.new.rest × (length self.new.rest < self.new.target))
            ⊎ ((place : ℕ) × IsTruncatedAt self.new.rest place)) }
    {
        while let Some(end) = self.next_run() {
            self.take_run(end)?;
        }
        Ok(())
    }

    // Where the full run that the rest begins with ends, if it begins with one.
    fn next_run(&mut self) -> Option<usize>
        ensures same { self.new ≡ self.old }
        ensures run { IfSome result (λ end. IsFirstRun self.old.target end self.old.rest) }
        ensures full { IfSome result (λ end. self.old.target ≤ end) }
        ensures positive { IfSome result (λ end. 0 < end) }
        ensures none { IsNone result → (IsWhole self.old.rest × (length self.old.rest < self.old.target))
            ⊎ ((place : ℕ) × IsTruncatedAt self.old.rest place) }
    {
        match head_of(self.rest.as_slice(), self.whole, self.target) {
            Ok(end) => Some(end),
            Err(whole) => {
                self.whole = whole;
                None
            }
        }
    }

    // Takes the full run off the head of the rest.
    fn take_run(&mut self, end: usize) -> Result<(), OutOfMemory>
        requires run { IsFirstRun self.old.target end self.old.rest }
        requires full { self.old.target ≤ end }
        ensures taken { OnOk result (IsTaken end self.old self.new) }
        ensures same { OnErr result (self.new ≡ self.old) }
    {
        if self.cut.count() < MOST_MORSELS {
            self.rest
                .take_run(self.alloc, &mut self.cut, &mut self.spares, end)?;
        } else {
            self.past += end as u64;
            self.rest.skip(end);
        }
        self.whole = 0;
        Ok(())
    }
}

// Appends the vectors of the morsels of a cut that nobody else holds, but for small and for large ones.
fn append_vectors(vectors: &mut Vec<Vec<u8>>, cut: Cut) {
    for morsel in cut.into_morsels() {
        if let Some(morsel) = Arc::into_inner(morsel) {
            append_vector(vectors, morsel.into_bytes());
        }
    }
}

// Appends a vector, if it is neither small nor large. If there is no memory, it is let go.
fn append_vector(vectors: &mut Vec<Vec<u8>>, vector: Vec<u8>) {
    let capacity = vector.capacity();
    if LEAST_KEPT <= capacity && capacity <= MOST_KEPT {
        let _ = vectors.push(vector);
    }
}
