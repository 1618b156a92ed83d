//! Numbers that lie at any byte.
ghost use Rattle.std.specs.Prelude.{◌≡◌};
ghost use Rattle.order_list.specs.ShortRows.{number_of};

/// A number of 64 bits that lies at any byte, its lowest byte first. The compiler reads and writes it at once.
#[derive(Clone, Copy)]
pub(crate) struct Unaligned {
    pub(crate) bytes: [u8; 8],
}

impl Unaligned {
    #[inline(always)]
    #[tactic(auto, unfolding(crate::specs::ShortRows::number_of))]
    pub(crate) fn of(number: u64) -> Self
        ensures { number_of result ≡ number }
    {
        Unaligned {
            bytes: number.to_le_bytes(),
        }
    }

    #[inline(always)]
    #[tactic(auto, unfolding(crate::specs::ShortRows::number_of))]
    pub(crate) fn number(self) -> u64
        ensures { result ≡ number_of self }
    {
        u64::from_le_bytes(self.bytes)
    }
}
