//! Laws of answers: a file and a query have one, and a moment is decided by the messages that count.
ghost use Rattle.std.specs.Prelude.{◌≡◌, ◌↔◌, ℕ, List, None, Result};
ghost use Rattle.answers.specs.Answers.{HasCounted, IsAnswer, NoneIsPast};
ghost use Rattle.day_rows.specs.Messages.{Placed};
ghost use Rattle.outcomes.specs.declared.day_fault.DayFault.{DayFault};
ghost use Rattle.meaning.specs.Meaning.{Meaning};

/// The law of answers: a file and a query have at most one. It does nothing when it runs.
pub fn one_answer()
    ensures { (file : List ℕ) (query : Meaning) (one other : Result (List ℕ) DayFault) →
        IsAnswer file query one → IsAnswer file query other → one ≡ other }
{}

/// The law of a late moment: if no message of a file is past it, a query has the answers that it
/// has without the moment. It does nothing when it runs.
pub fn moment_past_all()
    ensures { (file : List ℕ) (query : Meaning) (answer : Result (List ℕ) DayFault) →
        NoneIsPast query.as_of file →
        IsAnswer file query answer ↔ IsAnswer file (record query { as_of = None }) answer }
{}

/// The law of a moment: two files, neither truncated nor with a wrong length, of whose messages the same
/// count, at the same places, have the same answers. It does nothing when it runs.
pub fn counted_messages_decide()
    ensures { (one other : List ℕ) (query : Meaning) (messages : List Placed)
        (answer : Result (List ℕ) DayFault) →
        HasCounted query.as_of one messages → HasCounted query.as_of other messages →
        IsAnswer one query answer ↔ IsAnswer other query answer }
{}
