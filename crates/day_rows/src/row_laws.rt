//! Laws of rows: those of joined lists of messages are joined.
ghost use Rattle.std.specs.Prelude.{◌≡◌, ℕ, List, Option, None, ◌++◌, map};
ghost use Rattle.std.specs.List.{flat_map};
ghost use Rattle.day_rows.specs.DayRows.{all_rows, joined, rows_of};
ghost use Rattle.day_rows.specs.Messages.{Placed, counted};

/// The law of rows: those of joined lists of messages are the joined rows. It does nothing when it runs.
#[tactic(auto, using(crate::proofs::JoinedRows::joined_laws))]
pub fn rows_are_joined()
    ensures two { (one other : List Placed) →
        rows_of (one ++ other) ≡ joined (rows_of one) (rows_of other) }
    ensures parts { (parts : List (List Placed)) →
        rows_of (flat_map (λ part. part) parts) ≡ all_rows (map rows_of parts) }
{}

/// The law of counted messages: those of joined lists are the joined counted ones, and without a moment
/// all count. It does nothing when it runs.
#[tactic(auto, using(crate::proofs::CountedMessages::counted_laws))]
pub fn counted_are_joined()
    ensures two { (as_of : Option ℕ) (one other : List Placed) →
        counted as_of (one ++ other) ≡ counted as_of one ++ counted as_of other }
    ensures parts { (as_of : Option ℕ) (parts : List (List Placed)) →
        counted as_of (flat_map (λ part. part) parts) ≡ flat_map (λ part. counted as_of part) parts }
    ensures all { (messages : List Placed) → counted None messages ≡ messages }
{}
