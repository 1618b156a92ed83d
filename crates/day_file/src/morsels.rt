//! A cut: all morsels of a day file.
ghost use Rattle.std.specs.Prelude.{◌≡◌, ◌≤◌, ◌<◌, ◌+◌, ◌++◌, ◌∷◌, [], ℕ, List, length, map, OnOk, OnErr, IfErr, IfOk, slice_get, Some, vec_len};
ghost use Rattle.std.specs.List.{concat};
ghost use Rattle.std.specs.Arc.{arc_value};
ghost use Rattle.day_file.specs.Cuts.{IsRun, rest_run, start_of};
ghost use Rattle.day_file.specs.Frames.{IsWhole};
ghost use Rattle.day_file.specs.Kept.{AreMorsels};

use crate::{Morsel, OutOfMemory};
use base::limits::{LONGEST_FILE, MOST_MORSELS};
use std::alloc::{AllocFailed, Global};
use std::marker::Model;
use std::sync::Arc;

/// A day file in morsels, numbered from 0, of which there are at most `MOST_MORSELS`. Contracts see
/// the list of their bytes, each one or more whole frames.
#[derive(Drop)]
pub struct Cut {
    morsels: Vec<Arc<Morsel, Global>>,
    length: u64,
}

impl Model for Cut {
    ghost use Rattle.std.specs.Prelude.{ℕ, List, map};
    ghost use Rattle.std.specs.Arc.{arc_value};

    ghost Value = { List (List ℕ) };

    ghost use Rattle.day_file.specs.Kept.{IsKept, runs_of};

    ghost view = { λ cut. runs_of (map arc_value cut.morsels.items) };

    ghost invariant = { λ cut. IsKept (map arc_value cut.morsels.items) cut.length };
}

impl Cut {
    /// The cut of no bytes.
    pub fn empty(alloc: Global) -> Self
        ensures { result ≡ [] }
    {
        Cut {
            morsels: Vec::new(alloc),
            length: 0,
        }
    }

    /// Adds these frames as the last morsel, without a copy. A refusal gives them back.
    #[tactic(auto, using(crate::proofs::Kept::growing))]
    pub fn append(&mut self, alloc: Global, run: Vec<u8>) -> Result<(), AllocFailed<Vec<u8>>>
        requires run { IsRun run.items }
        requires room { length self.old < MOST_MORSELS }
        requires within { length (concat self.old) + vec_len run ≤ LONGEST_FILE }
        ensures ok { OnOk result (self.new ≡ self.old ++ run.items ∷ []) }
        ensures err { OnErr result (self.new ≡ self.old) }
        ensures returned { IfErr result (λ refused. refused.value.items ≡ run.items) }
    {
        if self.morsels.reserve(1).is_err() {
            return Err(AllocFailed { value: run });
        }
        let length = run.len() as u64;
        let morsel = Morsel::of(self.morsels.len() as u32, self.length, run);
        match Arc::new(alloc, morsel) {
            Ok(morsel) => {
                // There is room.
                let _ = self.morsels.push(morsel);
                self.length += length;
                Ok(())
            }
            Err(refused) => Err(AllocFailed {
                value: refused.value.into_bytes(),
            }),
        }
    }

    /// Adds the rest of the bytes as the last morsel, if there is any, without a copy.
    pub fn append_rest(&mut self, alloc: Global, rest: Vec<u8>) -> Result<(), OutOfMemory>
        requires whole { IsWhole rest.items }
        requires room { length self.old + length (rest_run rest.items) ≤ MOST_MORSELS }
        requires within { length (concat self.old) + vec_len rest ≤ LONGEST_FILE }
        ensures ok { OnOk result (self.new ≡ self.old ++ rest_run rest.items) }
        ensures err { OnErr result (self.new ≡ self.old) }
    {
        if rest.is_empty() {
            return Ok(());
        }
        Ok(self.append(alloc, rest)?)
    }

    /// How many morsels there are.
    pub fn count(&self) -> u32
        ensures count { result ≡ length self.now }
        ensures few { result ≤ MOST_MORSELS }
    {
        self.morsels.len() as u32
    }

    /// How many bytes all morsels have.
    pub fn length(&self) -> u64
        ensures same { result ≡ length (concat self.now) }
        ensures within { result ≤ LONGEST_FILE }
    {
        self.length
    }

    /// All of them, in order.
    pub fn morsels(&self) -> &[Arc<Morsel, Global>]
        ensures { AreMorsels self.now (map arc_value result.now) }
    {
        self.morsels.as_slice()
    }

    /// All of them, in order, without the cut.
    pub fn into_morsels(self) -> Vec<Arc<Morsel, Global>>
        ensures { AreMorsels self (map arc_value result.items) }
    {
        self.morsels
    }

    /// The morsel of this number.
    pub fn morsel(&self, number: u32) -> &Arc<Morsel, Global>
        requires { number < length self.now }
        ensures number { (arc_value result.now).number ≡ number }
        ensures start { (arc_value result.now).start ≡ start_of self.now number }
        ensures bytes { slice_get self.now number ≡ Some (arc_value result.now).bytes }
    {
        &self.morsels[number as usize]
    }
}
