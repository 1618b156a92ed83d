//! From the total of the first pipeline to the inputs of the second.
ghost use Rattle.std.specs.Prelude.{IfOk, List};
ghost use Rattle.gathering.specs.declared.linked.Linked.{Linked};
ghost use Rattle.gathering.specs.Totals.{IsTotal};

use crate::{Inputs, Linked, OutOfMemory, Work};
use std::alloc::Global;

/// Makes the inputs of a second pipeline of a first one's total, or halts.
pub trait Link<A: Work, B: Work> {
    /// What is kept besides the second total.
    type Kept: Drop;

    /// What it halts with.
    type Stop: Drop;

    /// What a total may be linked to.
    ghost Links: { Self → A.Total → Linked (List B.Input) Self.Kept Self.Stop → Type 0 };

    /// What the total is linked to. Without memory it gives nothing, and the total is gone.
    fn link(
        &self,
        alloc: Global,
        total: A::Total,
    ) -> Result<Linked<Inputs<B>, Self::Kept, Self::Stop>, OutOfMemory>
        requires { IsTotal A.IsTotalOf A.IsAdmissible total }
        ensures { IfOk result (Links self.now total) };
}
