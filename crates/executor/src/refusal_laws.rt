//! A law of what refusals promise. It is the contract of a function that does nothing.
ghost use Rattle.std.specs.Prelude.{◌≡◌, ◌<◌, ◌≤◌, ◌⊎◌, ℕ, true, List, length, take, Some, Ok, Err};
ghost use Rattle.base.specs.declared.limits.TheConstants.{MOST_MORSELS};
ghost use Rattle.outcomes.specs.declared.query_fault.QueryFault.{QueryFault as TheQueryFault};
ghost use Rattle.query.specs.Faults.{first_query_fault};
ghost use Rattle.query.specs.Words.{lists_symbols, words_of};
ghost use Rattle.cutting.specs.Cutting.{IsCutBy};
ghost use Rattle.streaming.specs.Readings.{of_stream};
ghost use Rattle.runs.specs.Runs.{Answers, IsQuery, Ran};

use outcomes::RunFault;
use sinks::Sink;
use streaming::Source;

/// What further refusals of `run` say: a failed write, that the sink took that many first bytes of the answer; a wrong
/// query, its first fault, and that nothing was read; too many morsels, that the cut of all that the stream gave has;
/// want of memory, that the words mean a query, or list symbols and nothing was read.
pub fn refusals_of_run<S: Source, K: Sink>()
    ensures unwritten { (limit target written : ℕ) (before after : S) (words : List ℕ) (was is : K) →
        let reading = of_stream S.Source limit target before after in
        Ran reading K.Sink words limit was is (Err (RunFault.WriteFailed written)) →
        (text : List ℕ) × Answers reading words (Ok text)
        × (written ≤ length text) × K.Took was is (take written text) }
    ensures query { (limit target : ℕ) (before after : S) (words : List ℕ) (was is : K) (fault : TheQueryFault) →
        Ran (of_stream S.Source limit target before after) K.Sink words limit was is (Err (RunFault.Query fault)) →
        (first_query_fault (words_of words) ≡ Some fault) × (after ≡ before) }
    ensures too_many { (limit target : ℕ) (before after : S) (words : List ℕ) (was is : K) →
        Ran (of_stream S.Source limit target before after) K.Sink words limit was is (Err RunFault.TooManyMorsels) →
        (day : List ℕ) × S.Gave before after day × S.HasEnded after
        × ((runs : List (List ℕ)) × IsCutBy target runs day × (MOST_MORSELS < length runs)) }
    ensures memory { (limit target : ℕ) (before after : S) (words : List ℕ) (was is : K) →
        Ran (of_stream S.Source limit target before after) K.Sink words limit was is (Err RunFault.OutOfMemory) →
        ((lists_symbols (words_of words) ≡ true) × (after ≡ before)) ⊎ IsQuery words }
{}
