//! A text in parts, which are made with memory, or written without.
ghost use Rattle.std.specs.Prelude.{◌≡◌, ◌<◌, ◌≤◌, ◌^◌, ℕ, [], List, IfErr, IfOk, false, length, slice_index_or};
ghost use Rattle.sinks.specs.Written.{IsWritten};

use crate::delivering::WriteFailed;
use crate::sink::Sink;
use base::OutOfMemory;
use std::alloc::Global;

/// A text in parts. Threads can make its parts side by side, each in memory that it takes for it. Once the first byte
/// is written no refusal of memory may be reported any more, so a part can be written without memory too.
pub trait Parts: Sync {
    /// The texts of all parts, in their order.
    ghost texts: { Self → List (List ℕ) };

    /// How many parts there are, fewer than 2^24.
    fn count(&self) -> usize
        ensures count { result ≡ length (texts self.now) }
        ensures few { result < 2 ^ 24 };

    /// Makes the text of a part.
    fn make(&self, alloc: Global, part: usize) -> Result<Vec<u8>, OutOfMemory>
        requires { part < length (texts self.now) }
        ensures { IfOk result (λ text. text.items ≡ slice_index_or (texts self.now) part []) };

    /// Writes the text of a part to a sink, line by line, and says how many bytes it has, which are fewer than 2^39. It
    /// takes no memory, and may take much longer than to make the text.
    fn put<K: Sink>(&self, part: usize, sink: &mut K) -> Result<u64, WriteFailed>
        requires within { part < length (texts self.now) }
        requires whole { K.has_failed sink.old ≡ false }
        ensures written { IsWritten K.Sink sink.old sink.new (slice_index_or (texts self.now) part []) result }
        ensures count { IfOk result (λ count. count ≡ length (slice_index_or (texts self.now) part [])) }
        ensures few { IfOk result (λ count. count < 2 ^ 39) }
        ensures few_failed { IfErr result (λ failed. failed.written < 2 ^ 39) };
}
