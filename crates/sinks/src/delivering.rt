//! A whole text, or one in pieces, written to a sink.
ghost use Rattle.std.specs.Prelude.{◌≡◌, ◌<◌, ◌^◌, false, length, IfOk, OnOk};
ghost use Rattle.sinks.specs.Written.{IsWritten, text_of};

use crate::sink::Sink;
use sources::DeviceFailed;
use std::alloc::Allocator;

/// A sink failed, and had taken the first `written` bytes of the text.
#[derive(Clone, Copy, PartialEq, Eq)]
pub struct WriteFailed {
    pub written: u64,
}

/// Writes a whole text, and passes it on.
pub fn deliver<K: Sink>(sink: &mut K, text: &[u8]) -> Result<(), WriteFailed>
    requires { K.has_failed sink.old ≡ false }
    ensures written { IsWritten K.Sink sink.old sink.new text.now result }
    ensures flushed { OnOk result (K.HasFlushed sink.new) }
{
    put_all(sink, text)?;
    match sink.flush() {
        Ok(()) => Ok(()),
        Err(DeviceFailed) => Err(WriteFailed {
            written: text.len() as u64,
        }),
    }
}

/// Writes all pieces, and says how many bytes they have.
pub(crate) fn put_pieces<K: Sink, A: Allocator>(
    sink: &mut K,
    pieces: &[Vec<u8, A>],
) -> Result<u64, WriteFailed>
    requires whole { K.has_failed sink.old ≡ false }
    requires short { length (text_of pieces.now) < 2 ^ 64 }
    ensures written { IsWritten K.Sink sink.old sink.new (text_of pieces.now) result }
    ensures count { IfOk result (λ count. count ≡ length (text_of pieces.now)) }
{
    let mut written = 0;
    for piece in pieces {
        match put_all(sink, piece.as_slice()) {
            Ok(()) => written += piece.len() as u64,
            Err(refused) => return Err(WriteFailed {
                written: written + refused.written,
            }),
        }
    }
    Ok(written)
}

/// Writes a whole text.
pub fn put_all<K: Sink>(sink: &mut K, text: &[u8]) -> Result<(), WriteFailed>
    requires { K.has_failed sink.old ≡ false }
    ensures { IsWritten K.Sink sink.old sink.new text.now result }
{
    let mut written = 0;
    while written < text.len() {
        match sink.put(&text[written..]) {
            Ok(count) => written += count,
            Err(DeviceFailed) => return Err(WriteFailed {
                written: written as u64,
            }),
        }
    }
    Ok(())
}
