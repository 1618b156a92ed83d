//! What every run begins and ends with: the query of its text, and what is reported of its source.
ghost use Rattle.std.specs.Prelude.{◌≡◌, ◌↔◌, false, true, Err, IfErr, IfOk, Ok};
ghost use Rattle.query.specs.Grammar.{Means};
ghost use Rattle.query.specs.Words.{words_of};
ghost use Rattle.runs.specs.Made.{IsReady, told};
ghost use Rattle.runs.specs.Runs.{is_read_failed};
ghost use Rattle.runs.specs.Ends.{IsQueryRefusal, reported};

use crate::calls::made::Made;
use answers::DayFault;
use day_file::SourceFault;
use outcomes::RunFault;
use query::{Query, QueryFault, parse};
use std::alloc::Global;

/// The query that a text means. It is refused with the first fault of its words, or if it lists symbols and memory was
/// refused to it.
pub fn query_of(alloc: Global, text: &str) -> Result<Query, RunFault>
    ensures query { IfOk result (Means (words_of text.now)) }
    ensures refused { IfErr result (IsQueryRefusal text.now) }
{
    match parse(alloc, text) {
        Ok(query) => Ok(query),
        Err(QueryFault::OutOfMemory) => Err(RunFault::OutOfMemory),
        Err(fault) => Err(RunFault::Query(fault)),
    }
}

/// What is reported if a source gives no rows: the place where it is truncated, or a refusal.
pub fn made_of_fault(fault: SourceFault, limit: u64) -> Result<Made, RunFault>
    ensures answers { IfOk result (λ made. reported limit fault ≡ Ok (told made)) }
    ensures ready { IfOk result IsReady }
    ensures refused { IfErr result (λ refusal. reported limit fault ≡ Err refusal) }
    ensures failed { (is_read_failed result ≡ true) ↔ (fault ≡ SourceFault.ReadFailed) }
{
    match fault {
        SourceFault::ReadFailed => Err(RunFault::ReadFailed),
        SourceFault::TooLong => Err(RunFault::TooLong { limit }),
        SourceFault::TooManyMorsels => Err(RunFault::TooManyMorsels),
        SourceFault::Truncated { place } => Ok(Made::Faulty(DayFault::Truncated { place })),
        SourceFault::OutOfMemory => Err(RunFault::OutOfMemory),
    }
}
