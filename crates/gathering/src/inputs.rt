//! The inputs of all tasks.
ghost use Rattle.std.specs.Prelude.{◌≡◌, ◌<◌, ◌≤◌, List, OnOk, length, map, get_or, slice_get, None, Some};
ghost use Rattle.std.specs.Arc.{arc_value};
ghost use Rattle.base.specs.declared.limits.TheConstants.{MOST_TASKS};
ghost use Rattle.gathering.specs.Adding.{same_inputs};
ghost use Rattle.gathering.specs.Kept.{covered_tasks, IsFolded};

use crate::{OutOfMemory, Piece, Work};
use std::alloc::{Allocator, Global};
use std::marker::Model;
use std::sync::Arc;

/// The inputs of all tasks, in order: an admissible list of at most `MOST_TASKS`. Task n works on input n. Contracts
/// see the list.
#[derive(Drop)]
pub struct Inputs<W: Work> {
    items: Vec<Arc<W::Input, Global>>,
}

impl<W: Work> Model for Inputs<W> {
    ghost Value = { List W.Input };

    ghost view = { λ a. map arc_value a.items.items };

    ghost invariant = { λ a. W.IsAdmissible (map arc_value a.items.items) × (length a.items.items ≤ MOST_TASKS) };
}

impl<W: Work> Inputs<W> {
    /// These inputs, in this order. It takes no memory.
    pub fn of(items: Vec<Arc<W::Input, Global>>) -> Self
        requires admissible { W.IsAdmissible (map arc_value items.items) }
        requires few { length items.items ≤ MOST_TASKS }
        ensures { result ≡ map arc_value items.items }
    {
        Inputs { items }
    }

    /// How many there are.
    pub fn count(&self) -> u32
        ensures count { result ≡ length self.now }
        ensures few { result ≤ MOST_TASKS }
    {
        self.items.len() as u32
    }

    /// All of them, in order: an admissible list.
    pub fn all(&self) -> &[Arc<W::Input, Global>]
        ensures inputs { map arc_value result.now ≡ self.now }
        ensures admissible { W.IsAdmissible self.now }
        ensures few { length result.now ≤ MOST_TASKS }
    {
        self.items.as_slice()
    }

    /// The input of a task.
    pub fn input(&self, number: u32) -> &Arc<W::Input, Global>
        requires { number < length self.now }
        ensures { slice_get self.now number ≡ Some (arc_value result.now) }
    {
        &self.items[number as usize]
    }

    /// Whether these and the others are equal, one by one.
    #[tactic(auto, using(crate::proofs::EqualInputs::mapped))]
    pub(crate) fn same(&self, other: &Self) -> bool
        ensures { result ≡ same_inputs W.Input.eq self.now other.now }
    {
        self.items == other.items
    }

    /// Adds the outputs of the pieces below the first gap to the total of the first `folded` inputs, in order, and
    /// drops the pieces. A refused addition leaves its piece and those after it.
    pub(crate) fn fold<A: Allocator>(
        &self,
        folded: &mut u32,
        total: &mut W::Total,
        places: &mut Vec<Option<Piece<W>>, A>,
    ) -> Result<(), OutOfMemory>
        requires { IsFolded W.Input.eq W.IsTotalOf self.now folded.old total.old places.old.items }
        ensures folded { IsFolded W.Input.eq W.IsTotalOf self.now folded.new total.new places.new.items }
        ensures covered { covered_tasks folded.new places.new.items ≡ covered_tasks folded.old places.old.items }
        ensures gap { OnOk result (get_or places.new.items folded.new None ≡ None) }
        ensures admissible { W.IsAdmissible self.now }
    {
        let count = self.items.len() as u32;
        while *folded < count {
            let at = *folded as usize;
            let Some(piece) = &places[at] else {
                return Ok(());
            };
            W::add(total, piece.output())?;
            places[at] = None;
            *folded += 1;
        }
        Ok(())
    }
}
