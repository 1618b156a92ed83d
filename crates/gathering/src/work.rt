//! Work that is done task by task.
ghost use Rattle.std.specs.Prelude.{◌≡◌, List, [], true, IfOk, OnOk, OnErr};
ghost use Rattle.gathering.specs.Adding.{CanAdd, AddsOutput, same_inputs};

use base::OutOfMemory;
use std::alloc::Global;

/// Work that is done task by task: a run of an input gives a value, and the values of a list of inputs add up to a
/// total. What a run may give and what a list may add up to are relations, since a run may read what changes
/// meanwhile, as a file; of most works they leave one value and one total.
///
/// Threads share inputs, and send outputs and totals to one another. It is `Drop` and `Send`, so that structs over
/// a work can be dropped and generic code may start threads.
pub trait Work: Drop + Send {
    /// What one task reads. A run of an input may give what one of an equal input may.
    type Input: Eq + Drop + Send + Sync;

    /// What a run of one input gives.
    type Output: Drop + Send;

    /// What the values of a list of inputs add up to.
    type Total: Drop + Send;

    /// What a run of an input may give.
    ghost Gives: { Self.Input → Self.Output → Type 0 };

    /// What a list of inputs may add up to.
    ghost IsTotalOf: { List Self.Input → Self.Total → Type 0 };

    /// The lists of inputs that may be worked on.
    ghost IsAdmissible: { List Self.Input → Type 0 };

    /// A value of an input. It may be run more than once on one input, on any thread.
    fn run(alloc: Global, input: &Self::Input) -> Result<Self::Output, OutOfMemory>
        ensures { IfOk result (λ output. Gives input.now output) };

    /// A total of no inputs.
    fn empty(alloc: Global) -> Self::Total
        ensures { IsTotalOf [] result };

    /// Makes a total of a list into one of the list with one input more, which has to begin some admissible list;
    /// without memory it leaves it.
    fn add(total: &mut Self::Total, output: &Self::Output) -> Result<(), OutOfMemory>
        requires { CanAdd Gives IsTotalOf IsAdmissible total.old output.now }
        ensures ok { OnOk result (AddsOutput Gives IsTotalOf IsAdmissible total.old output.now total.new) }
        ensures err { OnErr result (total.new ≡ total.old) };

    /// What a run of an input may give, one of an equal input may.
    ghost equal_values: { (a b : Self.Input) (output : Self.Output) → Self.Input.eq a b ≡ true
        → Gives a output → Gives b output };

    /// What a list of inputs may add up to, a list of equal inputs may.
    ghost equal_totals: { (xs ys : List Self.Input) → same_inputs Self.Input.eq xs ys ≡ true
        → (total : Self.Total) → IsTotalOf ys total → IsTotalOf xs total };
}
