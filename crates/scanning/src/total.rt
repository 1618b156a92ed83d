//! What the scans of morsels add up to.
ghost use Rattle.std.specs.Prelude.{◌≡◌, [], OnErr, OnOk, map};
ghost use Rattle.std.specs.Arc.{arc_value};
ghost use Rattle.scanning.specs.Scans.{total_of, with_scan, with_scans};

use crate::OutOfMemory;
use crate::scanned::Scanned;
use crate::wrong::WrongLength;
use base::earlier;
use morsel_rows::MorselRows;
use std::alloc::Global;
use std::marker::Model;
use std::sync::Arc;

/// The rows of each morsel, in the order of the morsels, and the least wrong length of all. The rows
/// are shared, and not copied.
#[derive(Drop)]
pub struct ScanTotal {
    morsels: Vec<Arc<MorselRows, Global>>,
    wrong: Option<WrongLength>,
}

impl Model for ScanTotal {
    ghost use Rattle.std.specs.Prelude.{map};
    ghost use Rattle.std.specs.Arc.{arc_value};
    ghost use Rattle.scanning.specs.Scans.{ScanTotalView};

    ghost Value = { ScanTotalView };

    ghost view = { λ a. record { morsels = map arc_value a.morsels.items; wrong = a.wrong } };
}

impl ScanTotal {
    /// The total of no morsels.
    pub fn empty(alloc: Global) -> Self
        ensures { result ≡ total_of [] }
    {
        ScanTotal {
            morsels: Vec::new(alloc),
            wrong: None,
        }
    }

    /// Takes in what the scan of one morsel more gives. Without memory it stays as it was.
    pub fn add(&mut self, scanned: &Scanned) -> Result<(), OutOfMemory>
        ensures ok { OnOk result (self.new ≡ with_scan self.old scanned.now) }
        ensures err { OnErr result (self.new ≡ self.old) }
    {
        let rows = Arc::try_clone(scanned.rows())?;
        self.morsels.push(rows)?;
        self.wrong = earlier(self.wrong, scanned.wrong(), |wrong| wrong.place);
        Ok(())
    }

    /// Takes in what the scans of other morsels give, which come after these. Their rows move, and nothing
    /// is copied. Without memory it stays as it was, and the others are let go.
    pub fn append(&mut self, other: ScanTotal) -> Result<(), OutOfMemory>
        ensures ok { OnOk result (self.new ≡ with_scans self.old other) }
        ensures err { OnErr result (self.new ≡ self.old) }
    {
        let ScanTotal { mut morsels, wrong } = other;
        self.morsels.append(&mut morsels)?;
        self.wrong = earlier(self.wrong, wrong, |wrong| wrong.place);
        Ok(())
    }

    /// The wrong length of least place, if there is one.
    pub fn wrong(&self) -> Option<WrongLength>
        ensures { result ≡ self.now.wrong }
    {
        self.wrong
    }

    /// Gives the rows of all morsels, in their order, and takes no memory.
    pub fn into_rows(self) -> Vec<Arc<MorselRows, Global>>
        ensures { map arc_value result.items ≡ self.morsels }
    {
        let ScanTotal { morsels, .. } = self;
        morsels
    }
}
