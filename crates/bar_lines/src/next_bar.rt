//! The bar that comes after another, found in one pass over what all tables keep. It takes no memory.
ghost use Rattle.std.specs.Prelude.{◌≡◌, ◌<◌, ◌++◌, List, Option, filter, map};
ghost use Rattle.std.specs.Option.{IfSome};
ghost use Rattle.std.specs.Ordering.{is_lt};
ghost use Rattle.std.specs.declared.cmp.Ordering.TheVariants.{Equal};
ghost use Rattle.time_and_sales.specs.Lent.{lent};
ghost use Rattle.time_and_sales.specs.Ranges.{is_in_first};
ghost use Rattle.bar.specs.OneBar.{CanJoin, key_cmp};
ghost use Rattle.bars.specs.Bars.{AllSumsFit, all_bars};
ghost use Rattle.bar_lines.specs.NextBar.{IsNext, is_later, next_of_both};
ghost use Rattle.bars.specs.Steps.{bar_of_tick};
ghost use Rattle.bar.specs.declared.bar.Bar.{Bar as TheBar};

use crate::gathered::{bar_at, ticks_within};
use bar::Bar;
use bars::{BucketBars, Tick};

/// The bar that comes after the last one in the table of all bars whose locates are in the first range: of what the
/// tables keep of greater keys, what has the least key, joined. If there is no last one, it is the first bar.
pub(crate) fn next_bar(tables: &[&BucketBars], bounds: &[u64], last: &Option<Bar>) -> Option<Bar>
    requires { AllSumsFit (all_bars (lent tables.now)) }
    ensures { IsNext last.now
        (filter (is_in_first (λ bar. bar.locate) bounds.now) (all_bars (lent tables.now))) result }
{
    let mut best = None;
    for table in tables {
        let (ticks, width) = ticks_within(table, bounds);
        best = next_of(best, ticks, width, last);
    }
    best
}

/// The next bar once the bars of these ticks are there too.
fn next_of(best: Option<Bar>, ticks: &[Tick], width: u32, last: &Option<Bar>) -> Option<Bar>
    requires width { 0 < width }
    requires sums { (before : List TheBar) × IsNext last.now before best
        × AllSumsFit (before ++ map (bar_of_tick width) ticks.now) }
    ensures { (before : List TheBar) → IsNext last.now before best →
        IsNext last.now (before ++ map (bar_of_tick width) ticks.now) result }
{
    let mut next = best;
    for tick in ticks {
        next = next_of_both(next, bar_at(&tick.at_start(width)), last);
    }
    next
}

/// The next bar once this one is there too: a bar that isn't later than the last one changes nothing, and one of the
/// same key is joined.
fn next_of_both(best: Option<Bar>, bar: Bar, last: &Option<Bar>) -> Option<Bar>
    requires { IfSome best (λ kept. key_cmp kept bar ≡ Equal → CanJoin kept bar) }
    ensures { result ≡ next_of_both last.now best bar }
{
    if !is_later(last, &bar) {
        return best;
    }
    match best {
        None => Some(bar),
        Some(kept) if comes_before(&kept, &bar) => Some(kept),
        Some(kept) if kept.has_key_of(&bar) => Some(kept.join(&bar)),
        Some(_) => Some(bar),
    }
}

/// Whether the bar has a greater key than the last one, if there is one.
fn is_later(last: &Option<Bar>, bar: &Bar) -> bool
    ensures { result ≡ is_later last.now bar.now }
{
    match last {
        None => true,
        Some(last) => comes_before(last, bar),
    }
}

/// Whether the bar has a lesser key than the other.
#[tactic(auto, using(std::proofs::lemmas::Bool::Decides::nat_tests))]
fn comes_before(bar: &Bar, other: &Bar) -> bool
    ensures { result ≡ is_lt (key_cmp bar.now other.now) }
{
    bar.locate < other.locate || bar.locate == other.locate && bar.start < other.start
}
