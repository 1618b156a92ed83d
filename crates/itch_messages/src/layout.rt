//! The table of types and lengths.
ghost use Rattle.std.specs.Prelude.{◌≡◌};
ghost use Rattle.itch_messages.specs.Layout.{length_of};

/// Why a body is not read: its first byte, `kind`, is a type that is read, and its `length` is not
/// the one that is `wanted` of that type. Both lengths are in bytes.
#[derive(Clone, Copy, PartialEq, Eq)]
pub struct LengthFault {
    pub kind: u8,
    pub length: usize,
    pub wanted: usize,
}

/// The length of a body of this type in bytes, if the type is one that is read.
#[inline(always)]
#[tactic(auto, unfolding(crate::specs::Layout::length_of))]
pub(crate) fn wanted_length(kind: u8) -> Option<usize>
    ensures { result ≡ length_of kind }
{
    match kind {
        b'A' | b'C' => Some(36),
        b'F' | b'Q' => Some(40),
        b'E' => Some(31),
        b'U' => Some(35),
        b'P' => Some(44),
        b'B' => Some(19),
        b'R' => Some(39),
        _ => None,
    }
}
