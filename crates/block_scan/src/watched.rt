//! A source under a watch.
ghost use Rattle.std.specs.Prelude.{◌≡◌};

use crate::block_source::BlockSource;
use crate::watch::{Watch, WatchName};
use day_file::DeviceFailed;
use std::marker::Model;

/// A source under a watch: it is read through the watch alone. Contracts see the source.
#[derive(Drop)]
pub struct Watched<'w, S: BlockSource, J: WatchName> {
    watch: &'w Watch<S, J>,
}

impl<'w, S: BlockSource, J: WatchName> Model for Watched<'w, S, J> {
    ghost Value = { S };

    ghost view = { λ watched. watched.watch.now };
}

impl<'w, S: BlockSource, J: WatchName> Watched<'w, S, J> {
    /// The source that this watch is over.
    pub fn under(watch: &'w Watch<S, J>) -> Self
        ensures { result ≡ watch.now }
    {
        Watched { watch }
    }
}

impl<S: BlockSource, J: WatchName> PartialEq for Watched<'_, S, J> {
    ghost eq = { S.eq };

    ghost laws = { S.PartialEq.laws };

    fn eq(&self, other: &Self) -> bool {
        self.watch.is_same(other.watch)
    }
}

impl<S: BlockSource, J: WatchName> Eq for Watched<'_, S, J> {
    ghost laws = { S.Eq.laws };
}

impl<S: BlockSource, J: WatchName> BlockSource for Watched<'_, S, J> {
    ghost GaveAt = { S.GaveAt };

    ghost EndsAt = { S.EndsAt };

    ghost FailsAt = { S.FailsAt };

    ghost gave_nothing = { S.gave_nothing };

    ghost gave_more = { S.gave_more };

    ghost gave_front = { S.gave_front };

    ghost gave_back = { S.gave_back };

    ghost one_source = { S.one_source };

    fn read_at(&self, place: u64, into: &mut [u8]) -> Result<usize, DeviceFailed> {
        match self.watch.read(place, into) {
            Ok(count) => Ok(count),
            Err(_) => Err(DeviceFailed),
        }
    }
}
