//! Why a step of an answer gave none.
ghost use Rattle.std.specs.Prelude.{◌≡◌};
ghost use Rattle.outcomes.specs.declared.day_fault.DayFault.TheVariants.{Truncated as AtPlace};
ghost use Rattle.executor.specs.declared.refused.Refused.TheVariants.{Day, OutOfMemory as Memory};

use answers::DayFault;
use day_file::Truncated;
use std::alloc::AllocError;

/// Why a step of an answer gave none.
#[derive(Clone, Copy)]
pub(crate) enum Refused {
    /// The day file has a fault.
    Day(DayFault),
    /// A growth was refused.
    OutOfMemory,
}

impl From<AllocError> for Refused {
    ghost from_gives = { λ _ refused. refused ≡ Memory };

    fn from(_: AllocError) -> Refused {
        Refused::OutOfMemory
    }
}

impl From<Truncated> for Refused {
    ghost from_gives = { λ truncated refused. refused ≡ Day (AtPlace truncated.place) };

    fn from(truncated: Truncated) -> Refused {
        Refused::Day(DayFault::Truncated {
            place: truncated.place,
        })
    }
}
