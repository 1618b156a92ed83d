//! A link between two pipelines that add numbers, and what the two give.
ghost use Rattle.std.specs.Prelude.{◌≡◌, ◌∷◌, [], if◌then◌else◌};
ghost use Rattle.gathering.specs.declared.linked.Linked.TheVariants.{Next, Halt};

use pipelines::{Inputs, Link, Linked, OutOfMemory, Outcome};
use std::alloc::Global;
use std::sync::Arc;
use tests_support::{Sum, Watch, inputs_of};

/// Goes on with inputs 1 and 2 and keeps the total, or halts with it.
#[derive(Drop)]
pub(crate) struct OneAndTwo {
    watch: Arc<Watch, Global>,
    halts: bool,
}

impl OneAndTwo {
    /// The link whose inputs have this watch.
    pub(crate) fn of(watch: &Arc<Watch, Global>, halts: bool) -> Result<Self, OutOfMemory> {
        let watch = Arc::try_clone(watch)?;
        Ok(OneAndTwo { watch, halts })
    }
}

impl Link<Sum, Sum> for OneAndTwo {
    type Kept = u128;

    type Stop = u128;

    ghost Links = { λ link total answer. answer
        ≡ (if link.halts then Halt total else Next (1 ∷ 2 ∷ []) total) };

    fn link(
        &self,
        alloc: Global,
        total: u128,
    ) -> Result<Linked<Inputs<Sum>, u128, u128>, OutOfMemory> {
        self.watch.grow()?;
        if self.halts {
            return Ok(Linked::Halt { stop: total });
        }
        Ok(Linked::Next {
            inputs: inputs_of(alloc, &self.watch, &[1, 2])?,
            kept: total,
        })
    }
}

/// The second total and the first, or that with which the link halted and 0.
pub(crate) type Sums = (u128, u128);

pub(crate) fn sums_of(outcome: Outcome<u128, u128, u128>) -> Sums {
    match outcome {
        Outcome::Finished { total, kept } => (total, kept),
        Outcome::Stopped { stop } => (stop, 0),
    }
}
