//! The source over any reader of std.
ghost use Rattle.std.specs.Prelude.{◌≡◌, false};

use crate::{DeviceFailed, Source};
use std::io::Read;

/// The source over any reader. Each call of the source is one call of its reader, and any error of
/// the reader, an interruption too, is a failure. What the source gave is what its reader lost, as
/// far as the type of the reader says which bytes it holds.
#[derive(Drop)]
pub struct Counted<R: Read> {
    reader: R,
    failed: bool,
}

impl<R: Read> Counted<R> {
    ghost use Rattle.sources.specs.Given.{is_failed, reader_of};

    /// The source of what this reader gives from here on.
    pub fn of(reader: R) -> Self
        ensures reader { reader_of result ≡ reader }
        ensures whole { is_failed result ≡ false }
    {
        Counted {
            reader,
            failed: false,
        }
    }
}

impl<R: Read> Source for Counted<R> {
    ghost use Rattle.std.specs.Io.KnownBytes.{Consumes, IsAtEnd};
    ghost use Rattle.std.proofs.KnownBytes.{Consumes-nil, Consumes-trans};
    ghost use Rattle.sources.specs.Given.{is_failed, reader_of};

    ghost Gave = { λ s t bytes.
        Consumes (R.remaining (reader_of s)) (R.remaining (reader_of t)) bytes };

    ghost HasEnded = { λ s. IsAtEnd (R.remaining (reader_of s)) };

    ghost has_failed = { is_failed };

    ghost gave_nothing = { λ s. Consumes-nil (R.remaining (reader_of s)) };

    ghost gave_more = { λ a b c xs ys p q. Consumes-trans (R.remaining (reader_of a))
        (R.remaining (reader_of b)) (R.remaining (reader_of c)) xs ys p q };

    fn take(&mut self, into: &mut [u8]) -> Result<usize, DeviceFailed> {
        match self.reader.read(into) {
            Ok(count) => Ok(count),
            Err(_) => {
                self.failed = true;
                Err(DeviceFailed)
            }
        }
    }

    fn failed(&self) -> bool {
        self.failed
    }
}
