//! What the scan of one morsel gives.
ghost use Rattle.std.specs.Prelude.{◌≡◌, IfOk};
ghost use Rattle.std.specs.Arc.{arc_value};

use crate::OutOfMemory;
use crate::wrong::WrongLength;
use morsel_rows::MorselRows;
use std::alloc::Global;
use std::marker::Model;
use std::sync::Arc;

/// The rows of a morsel's counted messages, in partitions, which totals share, and the morsel's least wrong length.
#[derive(Drop)]
pub struct Scanned {
    rows: Arc<MorselRows, Global>,
    wrong: Option<WrongLength>,
}

impl Model for Scanned {
    ghost use Rattle.std.specs.Arc.{arc_value};
    ghost use Rattle.scanning.specs.Scans.{ScanView};

    ghost Value = { ScanView };

    ghost view = { λ a. record { rows = arc_value a.rows; wrong = a.wrong } };
}

impl Scanned {
    /// These rows, to be shared, and this wrong length.
    pub(crate) fn of(
        alloc: Global,
        rows: MorselRows,
        wrong: Option<WrongLength>,
    ) -> Result<Self, OutOfMemory>
        ensures { IfOk result (λ scanned. scanned ≡ record { rows = rows; wrong = wrong }) }
    {
        Ok(Scanned {
            rows: Arc::new(alloc, rows)?,
            wrong,
        })
    }

    /// The rows of the messages that count.
    pub fn rows(&self) -> &Arc<MorselRows, Global>
        ensures { arc_value result.now ≡ self.now.rows }
    {
        &self.rows
    }

    /// The wrong length of least place, if there is one.
    pub fn wrong(&self) -> Option<WrongLength>
        ensures { result ≡ self.now.wrong }
    {
        self.wrong
    }
}
