//! Blocks of a source, each of which is a task.
ghost use Rattle.std.specs.Prelude.{◌≤◌};
ghost use Rattle.std.specs.Arc.{arc_value};
ghost use Rattle.std.specs.Cmp.{partial_equiv_from_equiv};
ghost use Rattle.block_scan.specs.Attempts.{BlockView, block_equiv, is_same_block};
ghost use Rattle.block_scan.specs.Pieces.{IsAskable};

use crate::block_source::BlockSource;
use crate::request::Request;
use std::alloc::Global;
use std::marker::Model;
use std::sync::Arc;

/// A block of a source, what is asked of the source, and between which places the block's frames begin.
#[derive(Drop)]
pub struct Block<S: BlockSource> {
    pub(crate) source: Arc<S, Global>,
    pub(crate) request: Request,
    pub(crate) from: u64,
    pub(crate) to: u64,
}

impl<S: BlockSource> Model for Block<S> {
    ghost Value = { BlockView S };

    ghost view = { λ block. record {
      asked = record { source = arc_value block.source; request = block.request };
      from = block.from;
      to = block.to;
    } };

    ghost invariant = { λ block. IsAskable block.request × (block.from ≤ block.request.limit) };
}

/// Blocks are equal if their sources are, and their places, and what is asked.
impl<S: BlockSource> PartialEq for Block<S> {
    ghost eq = { is_same_block S.eq };

    ghost laws = { partial_equiv_from_equiv (block_equiv S.Eq.laws S.one_source) };

    fn eq(&self, other: &Self) -> bool {
        *self.source == *other.source
            && self.request == other.request
            && self.from == other.from
            && self.to == other.to
    }
}

impl<S: BlockSource> Eq for Block<S> {
    ghost laws = { block_equiv S.Eq.laws S.one_source };
}
