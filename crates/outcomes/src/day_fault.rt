//! The faults of a day.
use thiserror::Error;

/// What is wrong with a day file. A place is the offset of a frame's length, in bytes from the file's start.
#[derive(Clone, Copy, Debug, PartialEq, Eq, Error)]
pub enum DayFault {
    /// The file ends within the frame at this place.
    #[error("place {place}: message runs past the end")]
    Truncated {
        place: u64,
    },
    /// The body is of a type that is read, and its length is not that type's.
    #[error("place {place}: message {letter} has length {length}, not {wanted}", letter = char::from(*.kind))]
    WrongLength {
        place: u64,
        kind: u8,
        length: usize,
        wanted: usize,
    },
    /// The message gives an order reference number that a message before it gave.
    #[error("place {place}: order reference {order_no} was given before")]
    RepeatedReference {
        place: u64,
        order_no: u64,
    },
    /// The execution names an order reference number that no message before it gives.
    #[error("place {place}: order reference {order_no} is not known")]
    UnknownReference {
        place: u64,
        order_no: u64,
    },
}
