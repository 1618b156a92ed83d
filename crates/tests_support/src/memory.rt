//! Bytes in memory as a file that is read at places.
ghost use Rattle.std.specs.Prelude.{◌≡◌, Some};

use block_scan::{DeviceFailed, FileBlocks, ReadsAt};

/// Bytes in memory.
#[derive(Drop)]
pub struct Memory<'a> {
    bytes: &'a [u8],
}

/// The blocks of these bytes.
pub fn in_memory(bytes: &[u8]) -> FileBlocks<Memory<'_>>
    ensures { result.contents ≡ Some bytes.now }
{
    FileBlocks::of(Memory { bytes })
}

impl<'a> ReadsAt for Memory<'a> {
    ghost contents = { λ memory. Some memory.bytes.now };

    fn get(&self, place: u64, into: &mut [u8]) -> Result<usize, DeviceFailed> {
        if place >= self.bytes.len() as u64 {
            return Ok(0);
        }
        let rest = &self.bytes[place as usize..];
        let count = rest.len().min(into.len());
        into[..count].copy_from_slice(&rest[..count]);
        Ok(count)
    }

    fn is_same(&self, other: &Self) -> bool {
        self.bytes == other.bytes
    }
}
