//! Pieces put together to the whole of a source.
ghost use Rattle.std.specs.Prelude.{◌≡◌, ◌≤◌, ◌<◌, All, Any, Err, MatchOption, Some, map, true, vec_len, IfErr, IfOk, IsErr, IsOk};
ghost use Rattle.std.specs.Arc.{arc_value};
ghost use Rattle.block_scan.specs.Attempts.{AreAttemptsOf, first_fault_of};
ghost use Rattle.day_file.specs.declared.source_fault.SourceFault.{SourceFault as TheFault};
ghost use Rattle.block_scan.specs.Blocks.{IsBlocksFault};
ghost use Rattle.day_file.specs.declared.frame.TheConstants.{LONGEST_FRAME};
ghost use Rattle.block_scan.specs.Pieces.{Asked, ChainedView, IsAskable, IsChained, IsGoneOn, IsPiece, IsScannedWhole};

use crate::attempt::{Attempt, Attempts};
use crate::block_reading::{scan_piece, zeros};
use crate::block_source::BlockSource;
use crate::request::Request;
use crate::scanned_block::{ScannedBlock, Tail};
use day_file::SourceFault;
use scanning::ScanTotal;
use std::alloc::Global;
use std::marker::Model;
use std::sync::Arc;

impl<S: BlockSource> Attempts<S> {
    /// What the whole source gives: its pieces put together, the first fault of a reading, or the place where all that
    /// was read is truncated. A piece that doesn't begin where the one before it ends is replaced by one that is read
    /// from there, and what is left after the last one is read here.
    pub fn join(&self, alloc: Global) -> Result<ScanTotal, SourceFault>
        requires { (asked : Asked S) × AreAttemptsOf asked self.now }
        ensures scanned { (asked : Asked S) → AreAttemptsOf asked self.now →
            IfOk result (IsScannedWhole S.BlockSource.own asked.source asked.request) }
        ensures fault { (asked : Asked S) → AreAttemptsOf asked self.now →
            IfErr result (IsBlocksFault S.BlockSource.own asked.source asked.request.limit) }
        ensures unread { Any (λ attempt. IsErr attempt.found) self.now → IsErr result }
        ensures first { (fault : TheFault) → first_fault_of self.now ≡ Some fault → result ≡ Err fault }
    {
        if let Some(fault) = self.first_fault() {
            return Err(fault);
        }
        let first: &Attempt<S> = &self.items[0];
        let (source, request) = (&*first.source, first.request);
        chain(alloc, source, request, self.items.as_slice())
    }

    /// Why there is no piece of the first block that has none.
    fn first_fault(&self) -> Option<SourceFault>
        ensures first { result ≡ first_fault_of self.now }
        ensures fault { MatchOption result (All (λ attempt. IsOk attempt.found) self.now)
            (λ fault. (asked : Asked S) → AreAttemptsOf asked self.now →
            IsBlocksFault S.BlockSource.own asked.source asked.request.limit fault) }
    {
        for attempt in &self.items {
            if let Err(fault) = attempt.found {
                return Some(fault);
            }
        }
        None
    }
}

/// Puts the pieces together.
fn chain<S: BlockSource>(
    alloc: Global,
    source: &S,
    request: Request,
    attempts: &[Arc<Attempt<S>, Global>],
) -> Result<ScanTotal, SourceFault>
    requires request { IsAskable request }
    requires attempts { All (λ attempt. attempt.asked ≡ record { source = source.now; request = request })
        (map arc_value attempts.now) }
    ensures scanned { IfOk result (IsScannedWhole S.BlockSource.own source.now request) }
    ensures fault { IfErr result (IsBlocksFault S.BlockSource.own source.now request.limit) }
{
    let mut chain = Chained {
        alloc,
        source,
        request,
        at: 0,
        total: ScanTotal::empty(alloc),
        buffer: zeros(alloc)?,
    };
    for attempt in attempts {
        if !chain.go_on(attempt)? {
            return Ok(chain.total);
        }
    }
    if chain.read_on(request.limit + 1)? {
        // A piece whose target is past the limit ends where the source does.
        unreachable!();
    }
    Ok(chain.total)
}

/// The pieces of a source that were put together so far: the total of their scans, and where they end.
#[derive(Drop)]
struct Chained<'a, S: BlockSource> {
    alloc: Global,
    source: &'a S,
    request: Request,
    at: u64,
    total: ScanTotal,
    buffer: Vec<u8>,
}

impl<'a, S: BlockSource> Model for Chained<'a, S> {
    ghost Value = { ChainedView S };

    ghost view = { λ chain. record {
      asked = record { source = chain.source.now; request = chain.request };
      at = chain.at;
      total = chain.total;
    } };

    ghost invariant = { λ chain. IsAskable chain.request × (LONGEST_FRAME < vec_len chain.buffer)
        × IsChained S.BlockSource chain.source.now chain.request chain.at chain.total };
}

impl<'a, S: BlockSource> Chained<'a, S> {
    /// Takes in the piece that begins here, and says whether more is to come. It is the attempt's piece, or one that
    /// is read from here to where that ends.
    fn go_on(&mut self, attempt: &Attempt<S>) -> Result<bool, SourceFault>
        requires attempt { attempt.now.asked ≡ self.old.asked }
        ensures gone_on { IsGoneOn S.BlockSource.own self.old self.new result }
    {
        match &attempt.found {
            Err(fault) => Err(*fault),
            Ok(piece) if piece.start == self.at => self.follow(piece),
            Ok(piece) => self.read_on(piece.end),
        }
    }

    /// Reads a piece from here on up to the target, takes it in, and says whether more is to come.
    fn read_on(&mut self, target: u64) -> Result<bool, SourceFault>
        ensures gone_on { IsGoneOn S.BlockSource.own self.old self.new result }
        ensures past { IfOk result (λ more. more ≡ true → (target ≤ self.new.at)
            × (self.new.at ≤ self.new.asked.request.limit)) }
    {
        let piece = scan_piece(
            self.alloc,
            self.source,
            self.request,
            self.at,
            target,
            &mut self.buffer,
        )?;
        self.follow(&piece)
    }

    /// Takes in the piece, which begins here, and says whether more is to come. One without a frame adds nothing.
    fn follow(&mut self, piece: &ScannedBlock) -> Result<bool, SourceFault>
        requires piece { IsPiece S.BlockSource.own self.old.asked.source self.old.asked.request piece.now }
        requires begins { piece.now.start ≡ self.old.at }
        ensures gone_on { IsGoneOn S.BlockSource.own self.old self.new result }
        ensures more { IfOk result (λ more. more ≡ true → piece.now.tail ≡ Tail.More) }
        ensures end { IfOk result (λ more. self.new.at ≡ piece.now.end) }
    {
        let has_frames = self.at < piece.end;
        if let Tail::Cut = piece.tail {
            return Err(SourceFault::Truncated { place: piece.end });
        }
        if has_frames {
            self.total.add(&piece.scanned)?;
            self.at = piece.end;
        }
        Ok(matches!(piece.tail, Tail::More))
    }
}
