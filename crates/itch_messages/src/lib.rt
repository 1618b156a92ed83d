//! The message bodies of Nasdaq TotalView-ITCH 5.0 that a day's trades are told by: add order (A, with attribution F),
//! order executed (E, with price C), order replace (U), trade (P), cross trade (Q), broken trade (B) and stock
//! directory (R). Numbers are unsigned and big-endian, and alpha fields are padded on the right with spaces.
//!
//! A body is read as a message exactly if it is the one that is written for that message; a body of another type is
//! skipped. The rule is proved once, over a list of field widths (`proofs/NineTypes`). Sides, cross types, attributions
//! and the rest of a directory message are kept and not interpreted.
#![tactic(auto)]

mod body_law;
mod body_reading;
mod draft;
mod fields;
mod header;
mod layout;
mod message;
mod time;
mod writing;

pub use base::OutOfMemory;
pub use body_law::one_body_each;
pub use body_reading::{is_read, kind_of, read, read_of_kind};
pub use header::Header;
pub use layout::LengthFault;
pub use message::{Add, Broken, Cross, Directory, Executed, ExecutedAt, Message, Replace, Trade};
pub use writing::append;
