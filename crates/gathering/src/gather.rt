//! The pieces of some tasks, and their total.
ghost use Rattle.std.specs.Prelude.{◌≡◌, ◌↔◌, ◌<◌, ◌≤◌, Bool, true, false, IsTrue, IsErr, IfOk, IfErr};
ghost use Rattle.std.specs.Prelude.{OnOk, OnErr, MatchOption, length, max, nat_lt, if◌then◌else◌};
ghost use Rattle.std.specs.Arc.{arc_value};
ghost use Rattle.std.specs.FinSet as set;
ghost use Rattle.gathering.specs.Adding.{same_inputs};
ghost use Rattle.gathering.specs.Refused.{IsRefusedFor};
ghost use Rattle.gathering.specs.Views.{belongs, merged, IsComplete, IsFirstMissing};

use crate::piece_places::{empty_places, merge_places};
use crate::{Inputs, OutOfMemory, Piece, Work};
use std::alloc::{Allocator, Global};
use std::marker::Model;
use std::sync::Arc;

/// The pieces of some tasks of a list of inputs, in whatever order they came. The room for them is taken of an
/// allocator, which is `Global` if none is named. Contracts see the inputs and the set of the tasks that are covered.
///
/// The pieces below the first gap are folded: added to one total and dropped. If an addition is refused, its piece
/// stays, and is added at a later `file`, `merge` or `total`. So once all tasks are covered, `total` has nothing left
/// to add.
#[derive(Drop)]
pub struct Gathering<W: Work, A: Allocator = Global> {
    inputs: Arc<Inputs<W>, Global>,
    folded: u32,
    total: W::Total,
    places: Vec<Option<Piece<W>>, A>,
}

impl<W: Work, A: Allocator> Model for Gathering<W, A> {
    ghost use Rattle.std.specs.Arc.{arc_value};
    ghost use Rattle.gathering.specs.Views.{GatheringView, gathering_code};
    ghost use Rattle.gathering.specs.Kept.{covered_tasks, IsFolded};

    ghost Value = { GatheringView W.Input };

    ghost coded = { gathering_code W.Input.code };

    ghost view = { λ a. record {
      inputs = arc_value a.inputs;
      covered = covered_tasks a.folded a.places.items;
    } };

    ghost invariant = { λ a. IsFolded W.Input.eq W.IsTotalOf (arc_value a.inputs) a.folded a.total a.places.items };
}

/// How a piece was filed.
#[derive(Clone, Copy, PartialEq, Eq)]
pub enum Filed {
    /// Its task was not covered before.
    New,
    /// Its task was covered before, and the piece was dropped.
    Again,
}

/// A piece of other work, refused by `file`.
#[derive(Drop)]
pub struct Stranger<W: Work> {
    pub piece: Piece<W>,
}

/// A gathering over other inputs, refused by `merge`.
#[derive(Drop)]
pub struct OtherInputs<W: Work, A: Allocator = Global> {
    pub other: Gathering<W, A>,
}

/// Why there is no total.
#[derive(Drop)]
pub enum TotalRefused<W: Work, A: Allocator = Global> {
    /// A task is missing.
    Missing { gathering: Gathering<W, A> },
    /// No task is missing, and a growth was refused.
    Memory { gathering: Gathering<W, A> },
}

impl<W: Work> Gathering<W> {
    /// No task is covered, and there is room for each piece: filing and merging need no memory.
    pub fn new(alloc: Global, inputs: Arc<Inputs<W>, Global>) -> Result<Self, OutOfMemory>
        ensures inputs { IfOk result (λ made. made.inputs ≡ arc_value inputs) }
        ensures covered { IfOk result (λ made. made.covered ≡ set.empty) }
    {
        Gathering::new_in(alloc, alloc, inputs)
    }
}

impl<W: Work, A: Allocator> Gathering<W, A> {
    /// No task is covered, and there is room for each piece: filing and merging need no memory.
    ///
    /// The room for the pieces is taken of `memory`, and the work's own growths of `alloc`. It is refused if `memory`
    /// has no room for a place for each task.
    pub fn new_in(
        alloc: Global,
        memory: A,
        inputs: Arc<Inputs<W>, Global>,
    ) -> Result<Self, OutOfMemory>
        ensures inputs { IfOk result (λ made. made.inputs ≡ arc_value inputs) }
        ensures covered { IfOk result (λ made. made.covered ≡ set.empty) }
    {
        let places = empty_places(memory, inputs.count())?;
        Ok(Gathering {
            inputs,
            folded: 0,
            total: W::empty(alloc),
            places,
        })
    }

    /// Keeps a piece whose task is not covered yet, and drops one whose task is. A piece is refused if its number is
    /// not below the count of inputs, or if the input that it was run on is not equal to the one of that number.
    #[tactic(auto, using(crate::proofs::CoveredTasks::insert_member))]
    pub fn file(&mut self, piece: Piece<W>) -> Result<Filed, Stranger<W>>
        ensures stranger { IsErr result ↔ (belongs W.Input.eq self.old.inputs piece ≡ false) }
        ensures handed_back { IfErr result (λ stranger. stranger.piece ≡ piece) }
        ensures filed { IfOk result (λ filed. filed
            ≡ (if set.contains self.old.covered piece.number then Filed.Again else Filed.New)) }
        ensures again { set.contains self.old.covered piece.number ≡ true → self.new.covered ≡ self.old.covered }
        ensures covered { OnOk result (self.new.covered ≡ set.insert self.old.covered piece.number) }
        ensures inputs { self.new.inputs ≡ self.old.inputs }
        ensures err { OnErr result (self.new ≡ self.old) }
    {
        if !is_own(&self.inputs, &piece) {
            return Err(Stranger { piece });
        }
        let number = piece.number();
        if self.covers(number) {
            self.fold_more();
            return Ok(Filed::Again);
        }
        self.places[number as usize] = Some(piece);
        self.fold_more();
        Ok(Filed::New)
    }

    /// Covers from now on what either covers. The other is refused if its inputs and these are not equal, one by one.
    pub fn merge(&mut self, other: Gathering<W, A>) -> Result<(), OtherInputs<W, A>>
        ensures other_inputs { IsErr result ↔ (same_inputs W.Input.eq self.old.inputs other.inputs ≡ false) }
        ensures handed_back { IfErr result (λ refused. refused.other ≡ other) }
        ensures merged { OnOk result (self.new ≡ merged self.old other) }
        ensures inputs { self.new.inputs ≡ self.old.inputs }
        ensures err { OnErr result (self.new ≡ self.old) }
    {
        if !self.inputs.same(&other.inputs) {
            return Err(OtherInputs { other });
        }
        let Gathering {
            folded,
            total,
            places,
            ..
        } = other;
        keep_longer(&mut self.folded, &mut self.total, folded, total);
        merge_places(&mut self.places, places, self.folded);
        self.fold_more();
        Ok(())
    }

    /// Whether a task is covered; false past the last task.
    #[tactic(auto, using(crate::proofs::CoveredTasks::gathered))]
    pub fn covers(&self, task: u32) -> bool
        ensures covered { result ≡ set.contains self.now.covered task }
        ensures in_range { IsTrue result → task < length self.now.inputs }
    {
        let at = task as usize;
        task < self.folded || at < self.places.len() && self.places[at].is_some()
    }

    /// The least task that is not covered.
    #[tactic(auto, using(crate::proofs::CoveredTasks::gathered))]
    pub fn first_missing(&self) -> Option<u32>
        ensures { MatchOption result (IsComplete self.now) (λ task. IsFirstMissing self.now task) }
    {
        for task in self.folded..self.inputs.count() {
            if !self.covers(task) {
                return Some(task);
            }
        }
        None
    }

    /// The total of all inputs, in order. It adds what is not folded yet, and runs no task. It is refused if a task is
    /// missing, and otherwise if a growth was refused.
    pub fn total(self) -> Result<W::Total, TotalRefused<W, A>>
        ensures complete { OnOk result (IsComplete self) }
        ensures total { IfOk result (λ total. W.IsTotalOf self.inputs total) }
        ensures admissible { OnOk result (W.IsAdmissible self.inputs) }
        ensures refused { IfErr result (λ refused. IsRefusedFor self refused) }
    {
        if let Some(_) = self.first_missing() {
            return Err(TotalRefused::Missing { gathering: self });
        }
        let Gathering {
            inputs,
            mut folded,
            mut total,
            mut places,
        } = self;
        match inputs.fold(&mut folded, &mut total, &mut places) {
            Ok(()) => Ok(total),
            Err(_) => Err(TotalRefused::Memory {
                gathering: Gathering {
                    inputs,
                    folded,
                    total,
                    places,
                },
            }),
        }
    }

    /// Folds the pieces below the first gap, as far as memory is found.
    fn fold_more(&mut self)
        ensures { self.new ≡ self.old }
    {
        let _ = self
            .inputs
            .fold(&mut self.folded, &mut self.total, &mut self.places);
    }
}

/// Whether the piece was run on an input equal to the one of its number. Inputs are compared by
/// content: the kit has no proved way to know that two `Arc`s share one allocation.
fn is_own<W: Work>(inputs: &Inputs<W>, piece: &Piece<W>) -> bool
    ensures own { result ≡ belongs W.Input.eq inputs.now piece.now }
    ensures in_range { result ≡ true → piece.now.number < length inputs.now }
{
    let number = piece.number();
    number < inputs.count() && **piece.input() == **inputs.input(number)
}

/// Of two numbers of folded inputs, each with their total, keeps the greater.
fn keep_longer<T: Drop>(own_folded: &mut u32, own_total: &mut T, folded: u32, total: T)
    ensures longer { own_folded.new ≡ max own_folded.old folded }
    ensures total { own_total.new ≡ (if nat_lt own_folded.old folded then total else own_total.old) }
{
    if *own_folded < folded {
        *own_folded = folded;
        *own_total = total;
    }
}
