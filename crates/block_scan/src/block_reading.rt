//! Pieces that are read and scanned through one buffer.
ghost use Rattle.std.specs.Prelude.{◌≡◌, ◌≤◌, ◌<◌, ◌+◌, [], length, take, vec_len, IfErr, IfOk};
ghost use Rattle.base.specs.declared.limits.TheConstants.{LONGEST_FILE};
ghost use Rattle.base.specs.Among.{AreBytes};
ghost use Rattle.day_file.specs.declared.frame.TheConstants.{LONGEST_FRAME};
ghost use Rattle.block_scan.specs.Blocks.{IsBlocksFault};
ghost use Rattle.block_scan.specs.declared.guessing.TheConstants.{LOOKED_AT};
ghost use Rattle.block_scan.specs.Pieces.{IsAskable, IsPiece, IsTried};
ghost use Rattle.scanning.specs.Scans.{scan_of};

use crate::OutOfMemory;
use crate::block::Block;
use crate::block_source::BlockSource;
use crate::guessing::guess;
use crate::request::Request;
use crate::scanned_block::{ScannedBlock, Tail};
use base::limits::LONGEST_FILE;
use day_file::{Frames, LONGEST_FRAME, SourceFault};
use scanning::OpenScan;
use std::alloc::Global;

/// The bytes of the buffer that a block is read through: just below glibc's mmap threshold of 128 KiB. A larger buffer
/// would be mapped; freeing it raises the threshold, and lists of its size then fragment the heap.
const BUFFER_BYTES: usize = 126_976;

const _: () = prove!(LONGEST_FRAME < BUFFER_BYTES);

/// How many bytes behind its target a piece reads at a time, since its last frame mostly ends there.
const BYTES_PAST_TARGET: u64 = 4_096;

/// The piece of a block, from the place on where a frame seems to begin.
pub(crate) fn scan_block<S: BlockSource>(
    alloc: Global,
    block: &Block<S>,
) -> Result<ScannedBlock, SourceFault>
    ensures tried { IsTried S.BlockSource.own block.now.asked.source block.now.asked.request result }
    ensures from { IfOk result (λ piece. block.now.from ≤ piece.start) }
    ensures near { IfOk result (λ piece. piece.start ≤ block.now.from + LOOKED_AT) }
    ensures to { IfOk result (λ piece. piece.tail ≡ Tail.More → block.now.to ≤ piece.end) }
{
    let (source, request) = (&*block.source, block.request);
    let start = guess(source, block.from, request.limit)?;
    let mut buffer = zeros(alloc)?;
    scan_piece(alloc, source, request, start, block.to, &mut buffer)
}

/// A buffer.
pub(crate) fn zeros(alloc: Global) -> Result<Vec<u8>, OutOfMemory>
    ensures { IfOk result (λ zeros. vec_len zeros ≡ BUFFER_BYTES) }
{
    vec![in alloc; 0u8; BUFFER_BYTES]
}

/// Reads from the start on, and scans the whole frames that it reads, up to the first one that begins at or after the
/// target, or to the source's end. It keeps no more of the bytes than the buffer has room for.
pub(crate) fn scan_piece<S: BlockSource>(
    alloc: Global,
    source: &S,
    request: Request,
    start: u64,
    target: u64,
    buffer: &mut [u8],
) -> Result<ScannedBlock, SourceFault>
    requires request { IsAskable request }
    requires start { start ≤ request.limit }
    requires room { LONGEST_FRAME < length buffer.old }
    ensures tried { IsTried S.BlockSource.own source.now request result }
    ensures start { IfOk result (λ piece. piece.start ≡ start) }
    ensures more { IfOk result (λ piece. piece.tail ≡ Tail.More → target ≤ piece.end) }
{
    let bytes = request.block.min(target.saturating_sub(start));
    let mut scan = OpenScan::new(alloc, request.parts, bytes)?;
    let (end, tail) = scan_frames(source, request, start, target, buffer, &mut scan)?;
    let scanned = scan.finish(alloc)?;
    Ok(ScannedBlock {
        start,
        end,
        scanned,
        tail,
    })
}

/// Does what `scan_piece` does with a scan that has nothing yet, and says where it ended and how.
#[tactic(auto, using(crate::proofs::Walked::walked_within))]
fn scan_frames<S: BlockSource>(
    source: &S,
    request: Request,
    start: u64,
    target: u64,
    buffer: &mut [u8],
    scan: &mut OpenScan,
) -> Result<(u64, Tail), SourceFault>
    requires request { IsAskable request }
    requires start { start ≤ request.limit }
    requires room { LONGEST_FRAME < length buffer.old }
    requires empty { scan.old ≡ scan_of request.parts request.as_of [] }
    ensures piece { IfOk result (λ (end, tail). IsPiece S.BlockSource.own source.now request
        (record { start = start; end = end; scanned = scan.new; tail = tail })) }
    ensures fault { IfErr result (IsBlocksFault S.BlockSource.own source.now request.limit) }
    ensures more { IfOk result (λ (end, tail). tail ≡ Tail.More → target ≤ end) }
{
    let mut place = start;
    let mut filled = 0;
    while place < target {
        let read = place + filled as u64;
        let most = target
            .saturating_sub(read)
            .saturating_add(BYTES_PAST_TARGET);
        let count = read_some(source, request.limit, read, most, &mut buffer[filled..])?;
        if count == 0 {
            let tail = if filled == 0 { Tail::Whole } else { Tail::Cut };
            return Ok((place, tail));
        }
        filled += count;
        let frames = Frames::of(place, &buffer[..filled]);
        let walked = scan.take_in(request.as_of, frames, target - place)?;
        buffer.copy_within(walked as usize..filled, 0);
        filled -= walked as usize;
        place += walked;
    }
    Ok((place, Tail::More))
}

/// Reads at this place at most `most` bytes and the length of `into`, and gives how many came. A byte
/// past the limit is a refusal, and none after that is asked for.
fn read_some<S: BlockSource>(
    source: &S,
    limit: u64,
    place: u64,
    most: u64,
    into: &mut [u8],
) -> Result<usize, SourceFault>
    requires limit { limit ≤ LONGEST_FILE }
    requires place { place ≤ limit }
    requires most { 0 < most }
    requires room { 0 < length into.old }
    ensures count { IfOk result (λ n. n ≤ length into.new) }
    ensures gave { IfOk result (λ n. S.GaveAt source.now place (take n into.new)) }
    ensures bytes { IfOk result (λ n. AreBytes (take n into.new)) }
    ensures within { IfOk result (λ n. place + n ≤ limit) }
    ensures end { IfOk result (λ n. n ≡ 0 → S.EndsAt source.now place) }
    ensures fault { IfErr result (IsBlocksFault S.BlockSource.own source.now limit) }
{
    let room = (into.len() as u64).min(limit + 1 - place).min(most) as usize;
    let count = source.read_at(place, &mut into[..room])?;
    if place + count as u64 > limit {
        return Err(SourceFault::TooLong);
    }
    Ok(count)
}
