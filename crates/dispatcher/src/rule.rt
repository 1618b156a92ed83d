//! What a seat knows, and the rule that ties it to the words.
ghost use Rattle.std.specs.Prelude.{◌≡◌, ◌+◌, [], drop, take};
ghost use Rattle.std.specs.List.{range_with_len};
ghost use Rattle.dispatcher.specs.Rule.{IsConsistent, TellsClaim, TellsCount, TellsMark, TellsLook, joined_view, unused_view};

use atomic_table::{Join, Play, Split, TableRule};
use std::collections::LinkedList;

/// The word that counts the claims.
pub(crate) const CLAIMS_WORD: usize = 0;

/// The word of a task, which is 1 if the task is marked.
pub(crate) fn mark_word(task: u32) -> usize
    ensures { result ≡ task + 1 }
{
    task as usize + 1
}

/// What a seat knows: the numbers of seats that it has, its claims, the tasks that it marked, and
/// those that it marked or saw marked. No value of it is made.
pub struct View {
    pub numbers: LinkedList<u32>,
    pub claims: LinkedList<u64>,
    pub marked: LinkedList<u32>,
    pub seen: LinkedList<u32>,
}

/// How many tasks and seats a dispatcher has.
#[derive(Clone, Copy)]
pub struct Size {
    pub tasks: u32,
    pub seats: u32,
}

/// Each number is claimed once, and a task's word is 1 if and only if a seat marked the task. The first seat has all
/// numbers of seats.
pub struct EachOnce;

impl TableRule<(), View, Size> for EachOnce {
    ghost holds = { IsConsistent };

    ghost first = { λ size. unused_view (range_with_len 0 size.seats) };
}

/// A claim adds 1 to the count.
pub(crate) struct ClaimStep;

impl Play<(), View> for ClaimStep {
    ghost then = { TellsClaim };
}

/// A mark sets the word of its task.
pub(crate) struct MarkStep;

impl Play<(), View> for MarkStep {
    ghost then = { TellsMark };
}

/// A look reads the word of its task.
pub(crate) struct LookStep;

impl Play<(), View> for LookStep {
    ghost then = { TellsLook };
}

/// A look reads the count of the claims.
pub(crate) struct CountStep;

impl Play<(), View> for CountStep {
    ghost then = { TellsCount };
}

/// The first number of a seat goes to a seat of its own.
pub(crate) struct SeatSplit;

impl Split<View> for SeatSplit {
    ghost left = { λ v. record v { numbers = drop 1 v.numbers } };

    ghost right = { λ v. unused_view (take 1 v.numbers) };
}

/// One seat takes the place of both from now on.
pub(crate) struct SeatJoin;

impl Join<View> for SeatJoin {
    ghost both = { joined_view };

    ghost spent = { unused_view [] };
}
