//! Guesses of where a frame begins.
ghost use Rattle.std.specs.Prelude.{◌+◌, ◌≤◌, length, IfErr, IfOk};
ghost use Rattle.base.specs.declared.limits.TheConstants.{LONGEST_FILE};
ghost use Rattle.block_scan.specs.declared.guessing.TheConstants.{LOOKED_AT};

use crate::block_source::BlockSource;
use day_file::{DeviceFailed, Frames};
use itch_messages::read;

/// How many bytes are looked at for where a frame begins.
pub(crate) const LOOKED_AT: usize = 4_096;

/// How many frames in a row must look like messages.
const FRAMES_IN_A_ROW: usize = 16;

/// The bytes of the shortest body of a message, and of the longest.
const SHORTEST_BODY: usize = 12;

const LONGEST_BODY: usize = 50;

/// A place from this one on where a frame seems to begin, not far from it and within the limit. Nothing more is
/// promised of it: what is found from there on counts only if the piece before it ends there.
pub(crate) fn guess<S: BlockSource>(source: &S, from: u64, limit: u64) -> Result<u64, DeviceFailed>
    requires from { from ≤ limit }
    ensures within { IfOk result (λ place. place ≤ limit) }
    ensures from { IfOk result (λ place. from ≤ place) }
    ensures near { IfOk result (λ place. place ≤ from + LOOKED_AT) }
    ensures failed { IfErr result (λ _. S.FailsAt source.now from) }
{
    if from == 0 {
        return Ok(0);
    }
    let mut seen = [0u8; LOOKED_AT];
    let count = source.read_at(from, &mut seen)?;
    let offset = likely_offset(&seen[..count]);
    Ok(limit.min(from.saturating_add(offset as u64)))
}

/// How many bytes stand before the first that a frame seems to begin with: none, if there is no such byte.
fn likely_offset(bytes: &[u8]) -> usize
    requires { length bytes.now ≤ LONGEST_FILE }
    ensures { result ≤ length bytes.now }
{
    for offset in 0..bytes.len() {
        if is_likely(&bytes[offset..]) {
            return offset;
        }
    }
    0
}

/// Whether bytes begin with `FRAMES_IN_A_ROW` frames, each of which looks like one of a message.
fn is_likely(bytes: &[u8]) -> bool
    requires { length bytes.now ≤ LONGEST_FILE }
{
    let mut frames = Frames::of(0, bytes);
    for _ in 0..FRAMES_IN_A_ROW {
        match frames.next() {
            Some(frame) if is_body(frame.body) => {}
            _ => return false,
        }
    }
    true
}

/// Whether this looks like the body of a message: a capital letter, and the length of its type.
fn is_body(body: &[u8]) -> bool {
    let length = body.len();
    let is_of_a_type = length >= SHORTEST_BODY && length <= LONGEST_BODY;
    is_of_a_type && body[0].is_ascii_uppercase() && read(body).is_ok()
}
