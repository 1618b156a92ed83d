//! The lines of the bars of sorted ticks, which are made while the lines are written.
ghost use Rattle.std.specs.Prelude.{◌≡◌, All, IfOk, List, map};
ghost use Rattle.std.specs.List.Sorted.{IsSorted};
ghost use Rattle.time_and_sales.specs.Names.{names_by};
ghost use Rattle.bar.specs.OneBar.{key_cmp};
ghost use Rattle.bars.specs.Bars.{AllSumsFit, IsUnionOf};
ghost use Rattle.bars.specs.Steps.{bar_at};
ghost use Rattle.bar_lines.specs.Told.{IsTold};
ghost use Rattle.bars.specs.Texts.{lines_text};
ghost use Rattle.bar.specs.declared.bar.Bar.{Bar as TheBar};

use crate::gathered::{bar_at, count_keys};
use bars::{Tick, write_bar};
use base::OutOfMemory;
use std::alloc::Global;
use time_and_sales::{Name, Names};

/// How many bytes most lines have at most.
pub(crate) const USUAL_LINE: usize = 80;

/// The lines of the bars of gathered ticks in order of their keys, each under the name of its locate. No bar is made
/// but the one that the next line is of.
pub(crate) fn joined_lines(
    alloc: Global,
    sorted: &[Tick],
    names: &Names,
) -> Result<Vec<u8>, OutOfMemory>
    requires rise { IsSorted key_cmp (map bar_at sorted.now) }
    requires told { All IsTold (map bar_at sorted.now) }
    requires sums { AllSumsFit (map bar_at sorted.now) }
    ensures { IfOk result (λ text. (all : List TheBar) → IsUnionOf (map bar_at sorted.now) all →
        text.items ≡ lines_text (names_by names.now) all) }
{
    if sorted.is_empty() {
        return Ok(Vec::new(alloc));
    }
    let mut text = Vec::with_capacity(alloc, count_keys(sorted).saturating_mul(USUAL_LINE))?;
    let mut current = bar_at(&sorted[0]);
    let mut name = names.name(current.locate);
    for i in 1..sorted.len() {
        let bar = bar_at(&sorted[i]);
        if current.has_key_of(&bar) {
            current = current.join(&bar);
        } else {
            write_bar(&mut text, &current, &name)?;
            name = next_name(names, name, current.locate, bar.locate);
            current = bar;
        }
    }
    write_bar(&mut text, &current, &name)?;
    Ok(text)
}

/// The name of a locate, which isn't looked up if it is the same locate as before.
#[inline]
pub(crate) fn next_name(names: &Names, name: Name, before: u16, locate: u16) -> Name
    requires { name ≡ names_by names.now before }
    ensures { result ≡ names_by names.now locate }
{
    if locate == before {
        name
    } else {
        names.name(locate)
    }
}
