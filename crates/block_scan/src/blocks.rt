//! The blocks of a source.
ghost use Rattle.std.specs.Prelude.{◌≡◌, ◌<◌, ◌≤◌, map, IfErr, IfOk, OnOk};
ghost use Rattle.std.specs.Arc.{arc_value};
ghost use Rattle.base.specs.declared.limits.TheConstants.{LONGEST_FILE, MOST_PARTITIONS};
ghost use Rattle.block_scan.specs.Attempts.{block_at, blocks_of};
ghost use Rattle.block_scan.specs.Blocks.{IsBlocksFault};
ghost use Rattle.block_scan.specs.Pieces.{IsAskable};

use crate::OutOfMemory;
use crate::block::Block;
use crate::block_source::BlockSource;
use crate::block_work::BlockWork;
use crate::request::Request;
use base::limits::{LONGEST_FILE, MOST_PARTITIONS};
use day_file::SourceFault;
use gathering::Inputs;
use scanning::Division;
use std::alloc::Global;
use std::sync::Arc;

/// The blocks of a source of at most `limit` bytes, in order, those of the division. In them
/// is found what counts up to this moment, in seconds since midnight, in `parts` partitions.
///
/// The byte at `limit` is asked for here, so a source that is too long is refused before a block is read.
pub fn block_inputs<S: BlockSource + Send + Sync>(
    alloc: Global,
    source: &Arc<S, Global>,
    as_of: Option<u32>,
    parts: u32,
    limit: u64,
    division: Division,
) -> Result<Inputs<BlockWork<S>>, SourceFault>
    requires parts { (0 < parts) × (parts ≤ MOST_PARTITIONS) }
    requires limit { limit ≤ LONGEST_FILE }
    ensures inputs { IfOk result (λ inputs. inputs ≡ blocks_of (arc_value source.now)
        (record { limit = limit; as_of = as_of; parts = parts; block = division.bytes }) division.blocks) }

    // A reading at the limit found no byte there.
    ensures asked { OnOk result (S.EndsAt (arc_value source.now) limit) }

    ensures fault { IfErr result (IsBlocksFault S.BlockSource.own (arc_value source.now) limit) }
{
    let mut byte = [0u8; 1];
    if source.read_at(limit, &mut byte)? > 0 {
        return Err(SourceFault::TooLong);
    }
    let request = Request {
        limit,
        as_of,
        parts,
        block: division.bytes,
    };
    Ok(Inputs::of(blocks(alloc, source, request, division)?))
}

/// All blocks, in order.
fn blocks<S: BlockSource>(
    alloc: Global,
    source: &Arc<S, Global>,
    request: Request,
    division: Division,
) -> Result<Vec<Arc<Block<S>, Global>>, OutOfMemory>
    requires request { IsAskable request }
    requires division { request.block ≡ division.bytes }
    ensures { IfOk result (λ blocks. map arc_value blocks.items
        ≡ blocks_of (arc_value source.now) request division.blocks) }
{
    let mut blocks = Vec::with_capacity(alloc, division.blocks as usize)?;
    for number in 0..division.blocks {
        let block = block(Arc::try_clone(source)?, request, division, number);
        blocks.push(Arc::new(alloc, block)?)?;
    }
    Ok(blocks)
}

/// The block of this number.
fn block<S: BlockSource>(
    source: Arc<S, Global>,
    request: Request,
    division: Division,
    number: u32,
) -> Block<S>
    requires request { IsAskable request }
    requires division { request.block ≡ division.bytes }
    requires number { number < division.blocks }
    ensures { result ≡ block_at (arc_value source) request division.blocks number }
{
    let number = u64::from(number);
    let from = request.limit.min(number * division.bytes);
    let to = if number + 1 == u64::from(division.blocks) {
        request.limit + 1
    } else {
        (number + 1) * division.bytes
    };
    Block {
        source,
        request,
        from,
        to,
    }
}
