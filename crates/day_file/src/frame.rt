//! A frame, and the frames of bytes one by one.
ghost use Rattle.std.specs.Prelude.{◌≡◌, ◌+◌, ◌≤◌, ◌<◌, ◌^◌, ◌++◌, ℕ, List, [], length, take, None, Some, MatchOption, MatchResult, OnOk, OnErr, vec_capacity, vec_len};
ghost use Rattle.std.specs.Iterator.{item_count};
ghost use Rattle.day_file.specs.Frames.{FramesLeft, IsTruncatedAt, IsWhole, PlacedBody, StandsFrom, frame_of, spelling};
ghost use Rattle.day_file.specs.Placed.{GivesFrame, frames_left};
ghost use Rattle.base.specs.declared.limits.TheConstants.{LONGEST_FILE};

use crate::{OutOfMemory, Truncated};
use byteorder::{BigEndian, ByteOrder};
use std::alloc::Allocator;
use std::marker::Model;

/// The bytes of the length that comes before each body.
pub const LENGTH_BYTES: usize = 2;

/// The most bytes of a frame: those of its length, and its body.
pub const LONGEST_FRAME: usize = 65_537;

/// A frame of a day file. Its place is the number of bytes before it, from the file's start.
#[derive(Clone, Copy)]
pub struct Frame<'a> {
    pub place: u64,
    pub body: &'a [u8],
}

/// The frames of a day file that are left, in order, and the place where the file is truncated after them, if it is.
#[derive(Drop)]
pub struct Frames<'a> {
    place: u64,
    rest: &'a [u8],
}

impl<'a> Model for Frames<'a> {
    ghost use Rattle.std.specs.Prelude.{◌+◌, ◌≤◌, length};
    ghost use Rattle.base.specs.declared.limits.TheConstants.{LONGEST_FILE};
    ghost use Rattle.base.specs.Among.{AreBytes};
    ghost use Rattle.day_file.specs.Frames.{FramesLeft};
    ghost use Rattle.day_file.specs.Walk.{left_of};

    ghost Value = { FramesLeft };

    ghost view = { λ it. left_of it.place it.rest.now };

    ghost invariant = { λ it. (it.place + length it.rest.now ≤ LONGEST_FILE) × AreBytes it.rest.now };
}

impl<'a> Frames<'a> {
    /// The frames of a part of a file, of which the first begins at this place.
    pub fn of(place: u64, bytes: &'a [u8]) -> Self
        requires { place + length bytes.now ≤ LONGEST_FILE }
        ensures whole { (all : List PlacedBody) → StandsFrom place all bytes.now →
            result.frames ≡ all }
        ensures truncated { (count : ℕ) → IsTruncatedAt bytes.now count →
            StandsFrom place result.frames (take count bytes.now) }
        ensures end { MatchOption result.truncated (IsWhole bytes.now) (λ end.
            (count : ℕ) × (end ≡ place + count) × IsTruncatedAt bytes.now count) }
        ensures within { length (spelling result.frames) ≤ length bytes.now }
    {
        Frames { place, rest: bytes }
    }

    /// Walks over the frames that are left. It is an error if and only if the bytes are truncated after them.
    #[tactic(auto, using(crate::proofs::Walks::ended_walk))]
    pub fn finish(mut self) -> Result<(), Truncated>
        ensures { MatchResult result (λ _. self.entry.truncated ≡ None)
            (λ fault. self.entry.truncated ≡ Some fault.place) }
    {
        while let Some(_) = self.next() {}
        if self.rest.is_empty() {
            return Ok(());
        }
        Err(Truncated { place: self.place })
    }
}

impl<'a> Iterator for Frames<'a> {
    type Item = Frame<'a>;

    ghost next_gives = { GivesFrame };

    ghost remaining = { item_count frames_left };

    #[inline(always)]
    #[tactic(auto, using(crate::proofs::Walks::walking))]
    fn next(&mut self) -> Option<Frame<'a>> {
        let (prefix, after) = self.rest.split_at_checked(LENGTH_BYTES)?;
        let (body, rest) = after.split_at_checked(BigEndian::read_u16(prefix).into())?;
        let frame = Frame {
            place: self.place,
            body,
        };
        self.place += (LENGTH_BYTES + body.len()) as u64;
        self.rest = rest;
        Some(frame)
    }
}

/// Appends the frame of this body: its length in two bytes, the high one first, and the body. A
/// refused growth leaves `out` as it was.
pub fn append_frame<A: Allocator>(out: &mut Vec<u8, A>, body: &[u8]) -> Result<(), OutOfMemory>
    requires { length body.now < 2 ^ 16 }
    ensures ok { OnOk result (out.new.items ≡ out.old.items ++ frame_of body.now) }
    ensures err { OnErr result (out.new.items ≡ out.old.items) }

    // It is refused only if the room was short.
    ensures full { OnErr result
        (vec_capacity out.old < vec_len out.old + length (frame_of body.now)) }
{
    out.reserve(LENGTH_BYTES + body.len())?;
    out.extend_from_slice(&(body.len() as u16).to_be_bytes())?;
    out.extend_from_slice(body)
}
