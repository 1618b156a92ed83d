//! The faults of a run, in the order in which they are reported.
ghost use Rattle.std.specs.Prelude.{◌≡◌};
ghost use Rattle.outcomes.specs.declared.run_fault.RunFault.{RunFault};

use crate::day_fault::DayFault;
use crate::query_fault::QueryFault;
use base::limits::MOST_MORSELS;
use std::alloc::AllocError;
use thiserror::Error;

/// Why a query was not answered. Of several faults the first in this order is reported, with two exceptions: running
/// out of memory may be reported in place of a fault that would have been found later, or of one of the query; and if a
/// block of a source that is read at places is read twice, a reading of it that failed may not be reported.
#[derive(Clone, Copy, Debug, PartialEq, Eq, Error)]
pub enum RunFault {
    /// The query's text is no query.
    #[error("{0}")]
    Query(QueryFault),
    /// The source failed.
    #[error("reading failed")]
    ReadFailed,
    /// The source gave more than `limit` bytes.
    #[error("file is longer than {limit} bytes")]
    TooLong { limit: u64 },
    /// The day file isn't truncated, is cut while it is read, and has more than 65,536 morsels of the size
    /// that the settings ask for.
    #[error("more than {MOST_MORSELS} morsels")]
    TooManyMorsels,
    /// The day file has a fault.
    #[error("{0}")]
    Day(DayFault),
    /// The sink failed, and had taken the first `written` bytes of the text.
    #[error("writing failed after {written} bytes")]
    WriteFailed { written: u64 },
    /// A growth was refused.
    #[error("out of memory")]
    OutOfMemory,
}

impl From<AllocError> for RunFault {
    ghost from_gives = { λ _ fault. fault ≡ RunFault.OutOfMemory };

    fn from(_refused: AllocError) -> RunFault {
        RunFault::OutOfMemory
    }
}
