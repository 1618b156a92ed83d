//! The inputs of all scans of a cut.
ghost use Rattle.std.specs.Prelude.{◌≡◌, ◌+◌, ◌<◌, ◌≤◌, IfOk, OnOk, length};
ghost use Rattle.std.specs.List.{concat};
ghost use Rattle.base.specs.declared.limits.TheConstants.{LONGEST_FILE, MOST_MORSELS, MOST_PARTITIONS};
ghost use Rattle.scanning.specs.Scans.{AreRuns, AreTogether, inputs_of};

use crate::OutOfMemory;
use crate::input::ScanInput;
use crate::scan_work::ScanWork;
use day_file::Cut;
use gathering::Inputs;
use std::alloc::Global;
use std::sync::Arc;

/// The inputs of the scans of a cut: each of its morsels, in order, with this moment, in seconds since midnight, and
/// this number of partitions. They share the morsels with the cut, whose bytes are freed once both are let go.
///
/// It is refused if memory for the list of inputs, or for one of them, is refused.
pub fn scan_inputs(
    alloc: Global,
    cut: &Cut,
    as_of: Option<u32>,
    parts: u32,
) -> Result<Inputs<ScanWork>, OutOfMemory>
    requires { (0 < parts) × (parts ≤ MOST_PARTITIONS) }
    ensures inputs { IfOk result (λ inputs. inputs ≡ inputs_of as_of parts cut.now) }
    ensures runs { OnOk result (AreRuns 0 cut.now) }
{
    batch_inputs(alloc, cut, 1, 0, 0, as_of, parts)
}

/// The inputs of the scans of morsels of a cut that follow each other, where these were cut by themselves. Each input
/// has up to `together` neighbouring morsels, as many as there are of them. The first input has the number `first` in
/// the whole file, and `start` bytes come before it. If none do, nothing is required of the cut, which has few morsels
/// by itself and is no longer than a file may be. Otherwise they are as those of `scan_inputs`, and as that it is
/// refused.
pub fn batch_inputs(
    alloc: Global,
    cut: &Cut,
    together: usize,
    first: u32,
    start: u64,
    as_of: Option<u32>,
    parts: u32,
) -> Result<Inputs<ScanWork>, OutOfMemory>
    requires together { 0 < together }
    requires parts { (0 < parts) × (parts ≤ MOST_PARTITIONS) }
    requires within { 0 < start → start + length (concat cut.now) ≤ LONGEST_FILE }
    requires few { 0 < first → first + length cut.now ≤ MOST_MORSELS }
    ensures inputs { IfOk result (AreTogether together first start as_of parts cut.now) }
    ensures runs { OnOk result (AreRuns start cut.now) }
{
    let morsels = cut.morsels();
    let mut inputs = Vec::with_capacity(alloc, morsels.len() / together + 1)?;
    let mut from = 0;
    while from < morsels.len() {
        let to = from.saturating_add(together).min(morsels.len());
        let number = first + inputs.len() as u32;
        let place = start + morsels[from].start();
        let input = ScanInput::of(alloc, &morsels[from..to], number, place, as_of, parts)?;
        inputs.push(Arc::new(alloc, input)?)?;
        from = to;
    }
    Ok(Inputs::of(inputs))
}
