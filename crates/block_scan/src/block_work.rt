//! The work whose tasks are the blocks of a source.
ghost use Rattle.std.specs.Prelude.{◌≡◌};
ghost use Rattle.std.specs.Arc.{arc_value};
ghost use Rattle.block_scan.specs.Attempts.{AreBlocks, AreOf, IsAttemptAt, equal_attempts, equal_blocks};

use crate::OutOfMemory;
use crate::attempt::{Attempt, Attempts};
use crate::block::Block;
use crate::block_reading::scan_block;
use crate::block_source::BlockSource;
use day_file::SourceFault;
use gathering::Work;
use std::alloc::{AllocError, Global};
use std::marker::PhantomData;
use std::sync::Arc;

/// Reads and scans blocks. Two readings of a block may find different bytes, so what comes of a block isn't a function
/// of it. Blocks may be worked on together if they are of one source and of one request.
#[derive(Drop)]
pub struct BlockWork<S: BlockSource> {
    source: PhantomData<S>,
}

impl<S: BlockSource + Send + Sync> Work for BlockWork<S> {
    type Input = Block<S>;

    type Output = Arc<Attempt<S>, Global>;

    type Total = Attempts<S>;

    ghost Gives = { λ block attempt. IsAttemptAt block (arc_value attempt) };

    ghost IsTotalOf = { AreOf };

    ghost IsAdmissible = { AreBlocks };

    ghost equal_values = { λ a b attempt. equal_blocks S.Eq.laws S.one_source a b (arc_value attempt) };

    ghost equal_totals = { equal_attempts S.Eq.laws S.one_source };

    fn run(alloc: Global, input: &Block<S>) -> Result<Arc<Attempt<S>, Global>, OutOfMemory> {
        let found = match scan_block(alloc, input) {
            Err(SourceFault::OutOfMemory) => return Err(AllocError),
            found => found,
        };
        let attempt = Attempt {
            source: Arc::try_clone(&input.source)?,
            request: input.request,
            found,
        };
        Ok(Arc::new(alloc, attempt)?)
    }

    fn empty(alloc: Global) -> Attempts<S> {
        Attempts {
            items: Vec::new(alloc),
        }
    }

    fn add(total: &mut Attempts<S>, output: &Arc<Attempt<S>, Global>) -> Result<(), OutOfMemory> {
        total.items.push(Arc::try_clone(output)?)?;
        Ok(())
    }
}
