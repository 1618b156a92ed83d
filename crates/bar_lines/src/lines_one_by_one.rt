//! The lines of a range of locates, written without memory for them.
ghost use Rattle.std.specs.Prelude.{◌≡◌, ◌<◌, ◌≤◌, ◌^◌, All, IfErr, IfOk, false, filter, length};
ghost use Rattle.base.specs.declared.limits.TheConstants.{TIME_LIMIT, TRADE_LIMIT};
ghost use Rattle.sinks.specs.Written.{IsWritten};
ghost use Rattle.time_and_sales.specs.Lent.{lent};
ghost use Rattle.time_and_sales.specs.Names.{names_by};
ghost use Rattle.time_and_sales.specs.Ranges.{is_in_first};
ghost use Rattle.bar.specs.OneBar.{IsTraded};
ghost use Rattle.bars.specs.Bars.{AllSumsFit, IsUnionOf, all_bars};
ghost use Rattle.bars.specs.Texts.{IsWritable, bar_line, lines_text};

use crate::bar_lines::AllBars;
use crate::next_bar::next_bar;
use bar::Bar;
use bars::{BucketBars, line_of};
use sinks::{Sink, WriteFailed, put_all};
use time_and_sales::Names;

/// Writes the lines of the bars of all tables whose locates are in the first range, those of one locate and start
/// joined, and says how many bytes they have. It goes over all that is kept of the range once for each line.
pub(crate) fn put_lines<J: AllBars, K: Sink>(
    tables: &[&BucketBars],
    names: &Names,
    bounds: &[u64],
    sink: &mut K,
) -> Result<u64, WriteFailed>
    requires union { IsUnionOf (all_bars (lent tables.now)) J.bars }
    requires traded { All IsTraded (all_bars (lent tables.now)) }
    requires sums { AllSumsFit (all_bars (lent tables.now)) }
    requires starts { All (λ bar. bar.start < TIME_LIMIT) (all_bars (lent tables.now)) }
    requires few { length J.bars < TRADE_LIMIT }
    requires whole { K.has_failed sink.old ≡ false }
    ensures written { IsWritten K.Sink sink.old sink.new
        (lines_text (names_by names.now) (filter (is_in_first (λ bar. bar.locate) bounds.now) J.bars)) result }
    ensures count { IfOk result (λ count. count ≡ length
        (lines_text (names_by names.now) (filter (is_in_first (λ bar. bar.locate) bounds.now) J.bars))) }
    ensures few { IfOk result (λ count. count < 2 ^ 39) }
    ensures few_failed { IfErr result (λ failed. failed.written < 2 ^ 39) }
{
    let mut written = 0u64;
    let mut last = None;
    while let Some(bar) = next_bar(tables, bounds, &last) {
        match put_line(&bar, names, sink) {
            Ok(count) => written += count,
            Err(failed) => return Err(WriteFailed {
                written: written + failed.written,
            }),
        }
        last = Some(bar);
    }
    Ok(written)
}

/// Writes the line of a bar under the name of its locate, and says how many bytes it has.
fn put_line<K: Sink>(bar: &Bar, names: &Names, sink: &mut K) -> Result<u64, WriteFailed>
    requires writable { IsWritable bar.now }
    requires whole { K.has_failed sink.old ≡ false }
    ensures written { IsWritten K.Sink sink.old sink.new
        (bar_line bar.now (names_by names.now bar.now.locate)) result }
    ensures count { IfOk result (λ count. count ≡ length (bar_line bar.now (names_by names.now bar.now.locate))) }
    ensures short { length (bar_line bar.now (names_by names.now bar.now.locate)) ≤ 224 }
{
    let line = line_of(bar, &names.name(bar.locate));
    let text = line.as_slice();
    put_all(sink, text)?;
    Ok(text.len() as u64)
}
