//! What takes bytes (`Sink`; `CountedSink` over any writer; `Collected`, which keeps them in memory), and how a text is
//! written to it whole and flushed: a short one (`deliver`), or one in parts (`Parts`) behind a header, which threads
//! make while those before them are written (`put_parts`), or the caller does (`put_alone`). A delivery that fails says
//! how many first bytes were taken. An error of the writer, an interruption too, is a failure, and so is a write of no
//! byte of a slice that isn't empty.
//!
//! Once the first byte is written, no refusal of memory may be reported any more. So a part that there is no memory for
//! is written without (`Parts::put`).
//!
//! Not proved: that a writer is called once a call and never after its error; that `Parts::put` takes no memory, though
//! it is given no allocator; that threads make the parts before they are written, and that these calls return.
#![tactic(auto)]

mod ahead;
mod collected;
mod counted_sink;
mod delivering;
mod handing;
mod parts;
mod shares;
mod sink;

pub use collected::Collected;
pub use counted_sink::CountedSink;
pub use delivering::{WriteFailed, deliver, put_all};
pub use handing::{put_alone, put_parts};
pub use parts::Parts;
pub use sink::Sink;
pub use sources::DeviceFailed;
