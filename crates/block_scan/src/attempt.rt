//! What comes of blocks.
ghost use Rattle.std.specs.Prelude.{IsErrOf, List, map};
ghost use Rattle.std.specs.Arc.{arc_value};
ghost use Rattle.day_file.specs.declared.source_fault.SourceFault.{SourceFault};
ghost use Rattle.block_scan.specs.Attempts.{AttemptView};
ghost use Rattle.block_scan.specs.Pieces.{IsAskable, IsTried};

use crate::block_source::BlockSource;
use crate::request::Request;
use crate::scanned_block::ScannedBlock;
use day_file::SourceFault;
use std::alloc::Global;
use std::marker::Model;
use std::sync::Arc;

/// What came of a block: the piece that was found from its start on, or why there is none. That the source
/// gave it is kept by the type, and that it isn't for want of memory: such a block is run again.
#[derive(Drop)]
pub struct Attempt<S: BlockSource> {
    pub(crate) source: Arc<S, Global>,
    pub(crate) request: Request,
    pub(crate) found: Result<ScannedBlock, SourceFault>,
}

impl<S: BlockSource> Model for Attempt<S> {
    ghost Value = { AttemptView S };

    ghost view = { λ attempt. record {
      asked = record { source = arc_value attempt.source; request = attempt.request };
      found = attempt.found;
    } };

    ghost invariant = { λ attempt. IsAskable attempt.request
        × IsTried S.BlockSource (arc_value attempt.source) attempt.request attempt.found
        × (IsErrOf attempt.found SourceFault.OutOfMemory → ⊥) };
}

/// What came of each block, in the order of the blocks.
#[derive(Drop)]
pub struct Attempts<S: BlockSource> {
    pub(crate) items: Vec<Arc<Attempt<S>, Global>>,
}

impl<S: BlockSource> Model for Attempts<S> {
    ghost Value = { List (AttemptView S) };

    ghost view = { λ attempts. map arc_value attempts.items.items };
}
