//! What the link keeps besides the buckets: the names of locates, and the plan that all buckets share.

use buckets::{DayNames, Plan};
use std::alloc::Global;
use std::marker::Model;
use std::sync::Arc;

/// The names of a day's locates, and what its buckets share: the rows of all morsels are freed once nobody
/// has it. Contracts see the rows of the stock directory.
#[derive(Drop)]
pub struct DayPlan {
    pub names: DayNames,
    pub plan: Arc<Plan, Global>,
}

impl Model for DayPlan {
    ghost use Rattle.std.specs.Prelude.{List};
    ghost use Rattle.row_types.specs.declared.directory.DirectoryRow.{DirectoryRow as TheRow};

    ghost Value = { List TheRow };

    ghost view = { λ kept. kept.names };
}
