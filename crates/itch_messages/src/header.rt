//! What each message begins with, after its type.
ghost use Rattle.std.specs.Prelude.{◌≡◌, ◌<◌, ◌^◌};

use std::marker::Model;

/// A message's header. `locate` is the number of a stock on this day (stock locate), `tracking` is
/// Nasdaq's own (tracking number), and `time` is in nanoseconds since midnight, below
/// 281,474,976,710,656, which is six bytes. TotalView-ITCH 5.0, section 1.
#[derive(Clone, Copy, PartialEq, Eq)]
pub struct Header {
    pub locate: u16,
    pub tracking: u16,
    pub time: u64,
}

impl Model for Header {
    ghost use Rattle.std.specs.Prelude.{◌<◌, ◌^◌};
    ghost use Rattle.itch_messages.specs.Layout.{HeaderFields};

    ghost Value = { HeaderFields };

    ghost view = { λ h. record { locate = h.locate; tracking = h.tracking; time = h.time } };

    ghost invariant = { λ h. h.time < 2 ^ 48 };

    ghost inverse = { λ h. record { locate = h.locate; tracking = h.tracking; time = h.time } };
}

impl Header {
    /// The header with this time, in nanoseconds since midnight.
    #[inline(always)]
    pub fn of(locate: u16, tracking: u16, time: u64) -> Header
        requires { time < 2 ^ 48 }
        ensures { result ≡ record { locate = locate; tracking = tracking; time = time } }
    {
        Header {
            locate,
            tracking,
            time,
        }
    }
}
