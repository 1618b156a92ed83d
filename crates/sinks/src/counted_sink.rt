//! The sink over any writer.
ghost use Rattle.std.specs.Prelude.{◌≡◌, false};
ghost use Rattle.std.specs.Io.KnownBytes.{Appends};

use crate::sink::Sink;
use sources::DeviceFailed;
use std::io::Write;

/// The sink over any writer. Any error of the writer, an interruption too, and a write of no byte of a slice that is
/// not empty are failures. Each call of the sink calls the writer once, and none is made after an error: no clause of a
/// writer lets that be said, so tests count the calls. No clause says that a writer passes on what it keeps back.
#[derive(Drop)]
pub struct CountedSink<W: Write> {
    writer: W,
    failed: bool,
}

impl<W: Write> CountedSink<W> {
    ghost use Rattle.sinks.specs.Counted.{is_failed, writer_of};

    /// A sink that has taken nothing yet.
    pub fn of(writer: W) -> Self
        ensures writer { writer_of result ≡ writer }
        ensures whole { is_failed result ≡ false }
    {
        CountedSink {
            writer,
            failed: false,
        }
    }
}

impl<W: Write> Sink for CountedSink<W> {
    ghost use Rattle.std.proofs.KnownBytes.{Appends-nil, Appends-trans};
    ghost use Rattle.sinks.specs.Counted.{is_failed, writer_of};

    ghost Took = { λ before after bytes.
        Appends (W.contents (writer_of before)) (W.contents (writer_of after)) bytes };

    ghost HasFlushed = { λ _. Unit {0} };

    ghost has_failed = { is_failed };

    ghost took_nothing = { λ sink. Appends-nil (W.contents (writer_of sink)) };

    ghost took_more = { λ a b c xs ys first second. Appends-trans _ _ _ xs ys first second };

    fn put(&mut self, bytes: &[u8]) -> Result<usize, DeviceFailed> {
        match self.writer.write(bytes) {
            Ok(0) if !bytes.is_empty() => {
                self.failed = true;
                Err(DeviceFailed)
            }
            Ok(count) => Ok(count),
            Err(_) => {
                self.failed = true;
                Err(DeviceFailed)
            }
        }
    }

    fn flush(&mut self) -> Result<(), DeviceFailed> {
        match self.writer.flush() {
            Ok(()) => Ok(()),
            Err(_) => {
                self.failed = true;
                Err(DeviceFailed)
            }
        }
    }

    fn failed(&self) -> bool {
        self.failed
    }
}
