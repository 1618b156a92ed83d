//! Readers whose calls fail.
use std::io::{self, Read};

/// A reader that gives at most `step` bytes a call, whose call number `interrupted` is interrupted
/// (the first call has the number 0), and which goes on after that call. It counts its calls.
#[derive(Drop)]
pub struct Interrupted<'a> {
    pub rest: &'a [u8],
    pub step: usize,
    pub interrupted: u32,
    pub calls: u32,
}

impl<'a> Interrupted<'a> {
    /// The reader of these bytes, which has not been called.
    pub fn of(rest: &'a [u8], step: usize, interrupted: u32) -> Interrupted<'a> {
        Interrupted {
            rest,
            step,
            interrupted,
            calls: 0,
        }
    }
}

impl<'a> Read for Interrupted<'a> {
    fn read(&mut self, buf: &mut [u8]) -> io::Result<usize> {
        let call = self.calls;
        self.calls = call.saturating_add(1);
        if call == self.interrupted {
            return Err(io::Error::from(io::ErrorKind::Interrupted));
        }
        let count = self.step.min(buf.len()).min(self.rest.len());
        let (given, rest) = self.rest.split_at(count);
        buf[..count].copy_from_slice(given);
        self.rest = rest;
        Ok(count)
    }
}
