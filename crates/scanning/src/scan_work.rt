//! The work whose tasks are the scans of morsels.
ghost use Rattle.std.specs.Prelude.{◌≡◌, OnOk};
ghost use Rattle.std.proofs.Common.{◌∙◌, ap, sym};
ghost use Rattle.base.proofs.Exact.{exact_list};
ghost use Rattle.day_file.specs.Walk.{frames_of};
ghost use Rattle.scanning.specs.Scans.{AreConsecutive, TakesIn, exact_input, scanned, total_of};

use crate::OutOfMemory;
use crate::input::ScanInput;
use crate::open_scan::OpenScan;
use crate::scanned::Scanned;
use crate::total::ScanTotal;
use day_file::Frames;
use gathering::Work;
use std::alloc::Global;

/// Scans morsels, neighbouring ones together. The morsels of one cut may be scanned, with one moment and one number of
/// partitions.
#[derive(Drop)]
pub struct ScanWork;

impl Work for ScanWork {
    type Input = ScanInput;

    type Output = Scanned;

    type Total = ScanTotal;

    ghost Gives = { λ input output. output ≡ scanned input };

    ghost IsTotalOf = { λ inputs total. total ≡ total_of inputs };

    ghost IsAdmissible = { AreConsecutive };

    ghost equal_values = { λ a b output same is. is ∙ ap scanned (exact_input.one a b same) };

    ghost equal_totals = { λ xs ys same total is. is ∙ sym (ap total_of ((exact_list exact_input).one xs ys same)) };

    fn run(alloc: Global, input: &ScanInput) -> Result<Scanned, OutOfMemory> {
        let mut scan = OpenScan::new(alloc, input.parts(), input.length())?;
        take_in_all(&mut scan, input)?;
        scan.finish(alloc)
    }

    fn empty(alloc: Global) -> ScanTotal {
        ScanTotal::empty(alloc)
    }

    #[tactic(auto, using(crate::proofs::TotalOfScans::total_more))]
    fn add(total: &mut ScanTotal, output: &Scanned) -> Result<(), OutOfMemory> {
        total.add(output)
    }
}

/// Takes in the frames of all morsels of an input.
fn take_in_all(scan: &mut OpenScan, input: &ScanInput) -> Result<(), OutOfMemory>
    ensures { OnOk result (TakesIn input.now.as_of (frames_of input.now.morsel) scan.old scan.new) }
{
    let mut place = input.start();
    for morsel in input.morsels() {
        let bytes = morsel.bytes();
        scan.take_in(input.as_of(), Frames::of(place, bytes), u64::MAX)?;
        place += bytes.len() as u64;
    }
    Ok(())
}
