//! Why a source gives no day.
ghost use Rattle.std.specs.Prelude.{◌≡◌};
ghost use Rattle.day_file.specs.declared.source_fault.SourceFault.{SourceFault};

use crate::OutOfMemory;
use sources::{DeviceFailed, ReadFault};

/// Why a source gives no day, whether it is read in order or at places.
#[derive(Clone, Copy, PartialEq, Eq)]
pub enum SourceFault {
    /// A reading failed.
    ReadFailed,
    /// The source has more bytes than the limit.
    TooLong,
    /// What was read, all of it, is truncated at this place, in bytes from its start.
    Truncated { place: u64 },
    /// What was read, all of it, would have more than `MOST_MORSELS` morsels. Read at places it has none.
    TooManyMorsels,
    /// There was no memory for a buffer, or for what is kept of the bytes.
    OutOfMemory,
}

impl From<OutOfMemory> for SourceFault {
    ghost from_gives = { λ _ fault. fault ≡ SourceFault.OutOfMemory };

    fn from(_refused: OutOfMemory) -> SourceFault {
        SourceFault::OutOfMemory
    }
}

impl From<DeviceFailed> for SourceFault {
    ghost from_gives = { λ _ fault. fault ≡ SourceFault.ReadFailed };

    fn from(_failed: DeviceFailed) -> SourceFault {
        SourceFault::ReadFailed
    }
}

impl From<ReadFault> for SourceFault {
    ghost use Rattle.day_file.specs.Sources.{source_fault_of};

    ghost from_gives = { λ fault given. given ≡ source_fault_of fault };

    fn from(fault: ReadFault) -> SourceFault {
        match fault {
            ReadFault::ReadFailed => SourceFault::ReadFailed,
            ReadFault::TooLong => SourceFault::TooLong,
            ReadFault::OutOfMemory => SourceFault::OutOfMemory,
        }
    }
}
