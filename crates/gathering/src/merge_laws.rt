//! Laws of merging and of equal inputs. Each is the contract of a function that does nothing.
ghost use Rattle.std.specs.Prelude.{◌≡◌, ℕ, List, true, Some, map, slice_get};
ghost use Rattle.std.specs.FinSet.{insert};
ghost use Rattle.gathering.specs.Adding.{same_inputs};
ghost use Rattle.gathering.specs.Views.{AreAlike, GatheringView, IsComplete, IsFirstMissing, PieceView, belongs, merged};

use crate::Work;

/// Merging is commutative, associative and idempotent, over what `merge` leaves.
///
/// If inputs are equal and not identical, what is left in either order is alike. Gatherings that are alike have the
/// same totals and one first missing task, refuse the same pieces and the same gatherings, and are complete together.
#[tactic(auto, using(crate::proofs::CoveredTasks::joined))]
pub fn merge_is_a_join<W: Work>()
    ensures commutative { (a b : GatheringView W.Input) → a.inputs ≡ b.inputs → merged a b ≡ merged b a }
    ensures associative { (a b c : GatheringView W.Input) → merged (merged a b) c ≡ merged a (merged b c) }
    ensures idempotent { (a : GatheringView W.Input) → merged a a ≡ a }

    ensures either_order { (a b : GatheringView W.Input) → same_inputs W.Input.eq a.inputs b.inputs ≡ true
        → AreAlike W.Input.eq (merged a b) (merged b a) }
    ensures one_total { (a b : GatheringView W.Input) → AreAlike W.Input.eq a b
        → (total : W.Total) → W.IsTotalOf b.inputs total → W.IsTotalOf a.inputs total }
    ensures one_first_missing { (a b : GatheringView W.Input) (t u : ℕ) → AreAlike W.Input.eq a b
        → IsFirstMissing a t → IsFirstMissing b u → t ≡ u }
    ensures same_strangers { (a b : GatheringView W.Input) (p : PieceView W.Input) → AreAlike W.Input.eq a b
        → belongs W.Input.eq a.inputs p ≡ belongs W.Input.eq b.inputs p }
    ensures same_other_inputs { (a b : GatheringView W.Input) (xs : List W.Input) → AreAlike W.Input.eq a b
        → same_inputs W.Input.eq a.inputs xs ≡ same_inputs W.Input.eq b.inputs xs }
    ensures complete_together { (a b : GatheringView W.Input) → AreAlike W.Input.eq a b → IsComplete a → IsComplete b }
{}

/// Gatherings that are alike stay alike: if a third one is merged into each, if each is merged into a third one, and
/// if a piece is filed. A third one refuses both or neither of them.
pub fn alike_stay_alike<W: Work>()
    ensures merged_into { (a b c : GatheringView W.Input) → AreAlike W.Input.eq a b
        → AreAlike W.Input.eq (merged a c) (merged b c) }
    ensures merged_from { (a b c : GatheringView W.Input) → AreAlike W.Input.eq a b
        → AreAlike W.Input.eq (merged c a) (merged c b) }
    ensures with_piece { (a b : GatheringView W.Input) (task : ℕ) → AreAlike W.Input.eq a b
        → AreAlike W.Input.eq (record a { covered = insert a.covered task })
        (record b { covered = insert b.covered task }) }
    ensures same_as_other { (a b : GatheringView W.Input) (xs : List W.Input) → AreAlike W.Input.eq a b
        → same_inputs W.Input.eq xs a.inputs ≡ same_inputs W.Input.eq xs b.inputs }
{}

/// A list of inputs is the same as itself, and its own pieces belong to it.
pub fn own_inputs_belong<W: Work>()
    ensures itself { (xs : List W.Input) → same_inputs W.Input.eq xs xs ≡ true }
    ensures own { (xs : List W.Input) (number : ℕ) (input : W.Input) → slice_get xs number ≡ Some input
        → belongs W.Input.eq xs (record { number = number; input = input }) ≡ true }
{}
