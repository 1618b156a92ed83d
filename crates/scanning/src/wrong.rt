//! Frames of a wrong length.

use itch_messages::LengthFault;

/// A frame whose length is not its type's: its place, in bytes from the file's start, and what is told of its body.
#[derive(Clone, Copy)]
pub struct WrongLength {
    pub place: u64,
    pub fault: LengthFault,
}
