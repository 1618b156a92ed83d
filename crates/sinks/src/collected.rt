//! A sink that keeps what it takes.
ghost use Rattle.std.specs.Prelude.{◌≡◌, [], false};

use crate::sink::Sink;
use sources::DeviceFailed;
use std::alloc::Allocator;

/// Keeps all bytes that it takes, in one vector. It fails if there is no memory for more.
#[derive(Drop)]
pub struct Collected<A: Allocator> {
    bytes: Vec<u8, A>,
    failed: bool,
}

impl<A: Allocator> Collected<A> {
    ghost use Rattle.sinks.specs.Counted.{bytes_of, is_full};

    /// It has taken nothing.
    pub fn new(alloc: A) -> Self
        ensures bytes { bytes_of result ≡ [] }
        ensures whole { is_full result ≡ false }
    {
        Collected {
            bytes: Vec::new(alloc),
            failed: false,
        }
    }

    /// All that it took.
    pub fn into_bytes(self) -> Vec<u8, A>
        ensures { result.items ≡ bytes_of self }
    {
        let Collected { bytes, .. } = self;
        bytes
    }
}

impl<A: Allocator> Sink for Collected<A> {
    ghost use Rattle.std.specs.Prelude.{◌≡◌, ◌++◌};
    ghost use Rattle.std.proofs.Common.{◌∙◌, sym, ap, append-nil, append_assoc};
    ghost use Rattle.sinks.specs.Counted.{bytes_of, is_full};

    ghost Took = { λ before after bytes. bytes_of after ≡ bytes_of before ++ bytes };

    ghost HasFlushed = { λ _. Unit {0} };

    ghost has_failed = { is_full };

    ghost took_nothing = { λ sink. sym (append-nil (bytes_of sink)) };

    ghost took_more = { λ a b c xs ys first more.
        more ∙ ap (λ bytes. bytes ++ ys) first ∙ append_assoc (bytes_of a) xs ys };

    fn put(&mut self, bytes: &[u8]) -> Result<usize, DeviceFailed> {
        if self.bytes.extend_from_slice(bytes).is_err() {
            self.failed = true;
            return Err(DeviceFailed);
        }
        Ok(bytes.len())
    }

    fn flush(&mut self) -> Result<(), DeviceFailed> {
        Ok(())
    }

    fn failed(&self) -> bool {
        self.failed
    }
}
