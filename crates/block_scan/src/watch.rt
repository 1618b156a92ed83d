//! A watch over a source: it notes that a reading failed, and tells whoever knows of one.
ghost use Rattle.std.specs.Prelude.{◌≡◌, ◌∷◌, ◌<◌, ◌≤◌, [], ℕ, true, false, length, take, IfErr, IfOk};
ghost use Rattle.std.specs.Arc.{arc_value};
ghost use Rattle.block_scan.specs.Noting.{word_in};

use crate::block_source::BlockSource;
use logbook::{Gain, Offer, Opening, Plain, Play, Rule, Seen, Start, Word};
use std::alloc::Global;
use std::marker::{Brand, Model, PhantomData};
use std::sync::Arc;

/// The rule of a watch's word. It exists in proofs alone, as the history does that the rule speaks of.
pub struct Noting<S> {
    source: PhantomData<S>,
}

impl<S: BlockSource> Rule<S, u64> for Noting<S> {
    ghost use Rattle.std.specs.Prelude.{[]};
    ghost use base.Fml.{ftrue};
    ghost use Rattle.block_scan.specs.Noting.{IsKept};

    ghost holds = { IsKept S.FailsAt };

    ghost first = { [] };

    ghost hinted = { λ hint log. Unit {0} };

    ghost shows = { λ log. [] };

    ghost keeps = { λ names log. ftrue };

    ghost moves = { λ ask before after answer. Unit {0} };
}

/// Threads trade nothing by a step. The history begins with the source.
pub struct Nothing;

impl<S> Gain<S, u64> for Nothing {
    ghost use base.Fml.{ftrue};

    ghost after = { λ names about answer. ftrue };
}

impl<S> Plain<S, S, u64> for Nothing {
    ghost use Rattle.std.specs.Prelude.{None};

    ghost ask = { λ source. source };

    ghost state = { λ source. None };
}

impl<S> Opening<S, S> for Nothing {
    ghost use Rattle.std.specs.Prelude.{[], ◌∷◌};

    ghost log = { λ count source. source ∷ [] };
}

/// A step that looks at the word.
pub struct Look;

impl<S: BlockSource> Play<S, u64> for Look {
    ghost use Rattle.block_scan.specs.Noting.{Looks};

    ghost then = { Looks S.FailsAt };
}

/// A step that notes a failure.
pub struct Note;

impl<S: BlockSource> Play<S, u64> for Note {
    ghost use Rattle.block_scan.specs.Noting.{Notes};

    ghost then = { Notes };
}

/// Which watch it is, for proofs alone.
pub trait WatchName {
    ghost use Rattle.logbook.specs.Pages.{Book};

    // The history that its word has. A proof picks it at a call.
    ghost book: { Book };
}

impl WatchName for Brand {
    ghost book = { record { number = 0; log_name = 0; cells_name = 0 } };
}

/// A watch that has noted nothing, and has no name yet.
#[derive(Drop)]
pub struct NewWatch<S: BlockSource> {
    source: Arc<S, Global>,
    word: Word<S, u64, Noting<S>>,
    seen: Seen<S, u64, Noting<S>>,
}

impl<S: BlockSource> Model for NewWatch<S> {
    ghost use Rattle.std.specs.Prelude.{◌≡◌, ◌∷◌, []};
    ghost use Rattle.std.specs.Arc.{arc_value};
    ghost use Rattle.block_scan.specs.Noting.{NewWatchView, word_in};

    ghost Value = { NewWatchView S };

    ghost view = { λ new. record { source = arc_value new.source; book = new.seen.book } };

    ghost invariant = { λ new. (new.seen.log ≡ arc_value new.source ∷ []) × (new.word ≡ word_in new.seen.book) };
}

impl<S: BlockSource> NewWatch<S> {
    /// A watch over this source.
    pub fn over(source: Arc<S, Global>) -> Self
        ensures { result.source ≡ arc_value source }
    {
        let (seen, mut pens) = Seen::open_row::<S, Nothing>(&source, Start::alone(), 1);
        let mut pen = pens.take();
        NewWatch {
            source,
            word: Word::tracked(0, &mut pen),
            seen,
        }
    }

    /// The same under this name.
    pub fn named<J: WatchName>(self) -> Watch<S, J>
        requires { self.book ≡ J.book }
        ensures { result ≡ self.source }
    {
        let NewWatch { source, word, seen } = self;
        Watch {
            source,
            word,
            seen,
            name: PhantomData,
        }
    }
}

/// What is known of a watch. It has no bytes, and may go to another thread. Contracts see whether it shows
/// that a failure was noted.
#[derive(Drop)]
pub struct Knowledge<S: BlockSource, J: WatchName> {
    seen: Seen<S, u64, Noting<S>>,
    name: PhantomData<J>,
}

impl<S: BlockSource, J: WatchName> Model for Knowledge<S, J> {
    ghost use Rattle.std.specs.Prelude.{◌≡◌, ◌==◌, Bool};
    ghost use Rattle.block_scan.specs.Noting.{word_of};

    ghost Value = { Bool };

    ghost view = { λ known. word_of known.seen.log == 1 };

    ghost invariant = { λ known. known.seen.book ≡ J.book };
}

/// A watch over a source, which all threads share that read the source. Contracts see the source.
#[derive(Drop)]
pub struct Watch<S: BlockSource, J: WatchName> {
    source: Arc<S, Global>,
    word: Word<S, u64, Noting<S>>,
    seen: Seen<S, u64, Noting<S>>,
    name: PhantomData<J>,
}

impl<S: BlockSource, J: WatchName> Model for Watch<S, J> {
    ghost use Rattle.std.specs.Prelude.{◌≡◌, ◌∷◌, []};
    ghost use Rattle.std.specs.Arc.{arc_value};
    ghost use Rattle.block_scan.specs.Noting.{word_in};

    ghost Value = { S };

    ghost view = { λ watch. arc_value watch.source };

    ghost invariant = { λ watch. (watch.seen.log ≡ arc_value watch.source ∷ [])
        × (watch.seen.book ≡ J.book) × (watch.word ≡ word_in J.book) };
}

impl<S: BlockSource, J: WatchName> Watch<S, J> {
    /// What is known by whoever has seen no failure.
    pub fn nothing_known(&self) -> Knowledge<S, J>
        ensures { result ≡ false }
    {
        Knowledge {
            seen: self.seen.again(),
            name: PhantomData,
        }
    }

    /// Reads the source, as `read_at` does. A reading that fails is noted, and that is known then.
    pub(crate) fn read(&self, place: u64, into: &mut [u8]) -> Result<usize, Knowledge<S, J>>
        requires room { 0 < length into.old }
        ensures len { length into.new ≡ length into.old }
        ensures count { IfOk result (λ n. n ≤ length into.new) }
        ensures gave { IfOk result (λ n. S.GaveAt self.now place (take n into.new)) }
        ensures end { IfOk result (λ n. n ≡ 0 → S.EndsAt self.now place) }
        ensures failed { IfErr result (λ known. S.FailsAt self.now place) }
        ensures noted { IfErr result (λ known. known ≡ true) }
    {
        match self.source.read_at(place, into) {
            Ok(count) => Ok(count),
            Err(_) => Err(self.note()),
        }
    }

    /// Whether both watch one source.
    pub(crate) fn is_same(&self, other: &Self) -> bool
        ensures { result ≡ S.eq self.now other.now }
    {
        *self.source == *other.source
    }

    /// Notes that a reading failed.
    fn note(&self) -> Knowledge<S, J>
        requires { (place : ℕ) × S.FailsAt self.now place }
        ensures { result ≡ true }
    {
        let mut seen = self.seen.again();
        let mut offer: Offer<S, u64, Noting<S>, Nothing> = seen.plain::<Nothing, S, Nothing>(
            &self.source,
        );
        let mut pen = seen.no_pen();
        self.word
            .compare_exchange::<Note, Nothing>(0, 1, &mut seen, &mut offer, &mut pen);
        Knowledge {
            seen,
            name: PhantomData,
        }
    }

    /// Whether a reading has failed. Whoever knows of one is told so. The watch ends: all readings under it have, since
    /// each borrows it.
    pub fn has_failed(self, known: &Knowledge<S, J>) -> bool
        ensures failed { result ≡ true → (place : ℕ) × S.FailsAt self place }
        ensures told { known.now ≡ true → result ≡ true }
    {
        let mut seen = self.seen.again();
        seen.learn(&known.seen);
        let mut offer: Offer<S, u64, Noting<S>, Nothing> = seen.plain::<Nothing, S, Nothing>(
            &self.source,
        );
        self.word.load::<Look, Nothing>(&mut seen, &mut offer) != 0
    }
}
