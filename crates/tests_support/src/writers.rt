//! Writers whose calls fail.
use std::alloc::Global;
use std::io::{self, Write};

/// A writer that takes at most `step` bytes a call, whose call number `interrupted` is interrupted
/// (the first call has the number 0, and flushes are calls), and which goes on after that call. It
/// counts its calls.
#[derive(Drop)]
pub struct InterruptedWriter {
    pub taken: Vec<u8>,
    pub step: usize,
    pub interrupted: u32,
    pub calls: u32,
}

impl InterruptedWriter {
    /// The writer that has not been called.
    pub fn of(alloc: Global, step: usize, interrupted: u32) -> InterruptedWriter {
        InterruptedWriter {
            taken: Vec::new(alloc),
            step,
            interrupted,
            calls: 0,
        }
    }

    /// Counts a call, and says whether it is interrupted.
    fn call(&mut self) -> io::Result<()> {
        let call = self.calls;
        self.calls = call.saturating_add(1);
        if call == self.interrupted {
            return Err(io::Error::from(io::ErrorKind::Interrupted));
        }
        Ok(())
    }
}

impl Write for InterruptedWriter {
    fn write(&mut self, buf: &[u8]) -> io::Result<usize> {
        self.call()?;
        let count = self.step.min(buf.len());
        self.taken.extend_from_slice(&buf[..count])?;
        Ok(count)
    }

    fn flush(&mut self) -> io::Result<()> {
        self.call()
    }
}
