//! The names of a day's locates.
ghost use Rattle.std.specs.Prelude.{◌≡◌, IfOk, List};
ghost use Rattle.row_types.specs.declared.directory.DirectoryRow.{DirectoryRow as TheRow};
ghost use Rattle.time_and_sales.specs.Names.{IsNamesOf};

use crate::OutOfMemory;
use std::alloc::Global;
use std::marker::Model;
use time_and_sales::{DirectoryRow, Names};

/// The names that rows of the stock directory give, and those rows. Contracts see the rows.
#[derive(Drop)]
pub struct DayNames {
    rows: Vec<DirectoryRow>,
    names: Names,
}

impl Model for DayNames {
    ghost Value = { List TheRow };

    ghost view = { λ made. made.rows.items };

    ghost invariant = { λ made. IsNamesOf made.rows.items made.names };
}

impl DayNames {
    /// The names that these rows give.
    pub fn build(alloc: Global, rows: Vec<DirectoryRow>) -> Result<Self, OutOfMemory>
        ensures { IfOk result (λ made. made ≡ rows.items) }
    {
        let names = Names::build(alloc, &rows)?;
        Ok(DayNames { rows, names })
    }

    /// The names.
    pub fn names(&self) -> &Names
        ensures { IsNamesOf self.now result.now }
    {
        &self.names
    }
}
