//! Items in the order of a number that each of them has, ranges of numbers, and the search for what is in a range.
ghost use Rattle.std.specs.Prelude.{◌≡◌, ℕ, ◌∷◌, ◌-◌, ◌≤◌, IfOk, filter, length, nat_lt, not};
ghost use Rattle.std.specs.List.Sorted.{IsNonDecreasingBy};
ghost use Rattle.time_and_sales.specs.Ranges.{greatest_so_far, is_behind, is_in_first};

use crate::OutOfMemory;
use std::alloc::Global;

/// A number of each item.
pub trait Numbered<T> {
    ghost number_of: { T → ℕ };

    /// The number of the item.
    fn number(item: &T) -> u64
        ensures { result ≡ number_of item.now };
}

/// The numbers of the items with which `parts` parts of them, of one length, begin, without the first.
pub fn numbers_of<N: Numbered<T>, T>(
    alloc: Global,
    items: &[T],
    parts: u32,
) -> Result<Vec<u64>, OutOfMemory>
    ensures { IfOk result (λ numbers. length numbers.items ≤ parts - 1) }
{
    let mut numbers = Vec::new(alloc);
    for part in 1..parts {
        let before = items.len() / parts as usize * part as usize;
        if let Some(item) = items.get(before) {
            numbers.push(N::number(item))?;
        }
    }
    Ok(numbers)
}

/// The least numbers of ranges: 0, then the greatest of the numbers so far, for each of them in turn. So no range
/// begins below the one before it, whatever the order of the numbers.
pub fn bounds_of(alloc: Global, numbers: &[u64]) -> Result<Vec<u64>, OutOfMemory>
    ensures { IfOk result (λ bounds. bounds.items ≡ 0 ∷ greatest_so_far 0 numbers.now) }
{
    let mut bounds = Vec::with_capacity(alloc, numbers.len().saturating_add(1))?;
    let mut bound = 0;
    bounds.push(bound)?;
    for number in numbers {
        bound = bound.max(*number);
        bounds.push(bound)?;
    }
    Ok(bounds)
}

/// The items whose numbers are in the first range.
pub fn within<'a, N: Numbered<T>, T>(items: &'a [T], bounds: &[u64]) -> &'a [T]
    requires { IsNonDecreasingBy N.number_of items.now }
    ensures { result.now ≡ filter (is_in_first N.number_of bounds.now) items.now }
{
    match bounds {
        [] => &[],
        [low] => parted::<N, T>(items, *low).1,
        [low, high, ..] => parted::<N, T>(parted::<N, T>(items, *low).1, *high).0,
    }
}

/// The items whose numbers are below this one, and the others.
fn parted<N: Numbered<T>, T>(items: &[T], number: u64) -> (&[T], &[T])
    requires { IsNonDecreasingBy N.number_of items.now }
    ensures below { result.0.now ≡ filter (λ item. nat_lt (N.number_of item) number) items.now }
    ensures others { result.1.now ≡ filter (λ item. not (nat_lt (N.number_of item) number)) items.now }
    ensures rise { IsNonDecreasingBy N.number_of result.1.now }
{
    items.split_at(items.partition_point(|item| N::number(item) < number))
}

/// The items whose numbers are greater than the last one: all of them, if there is none yet.
pub fn behind<N: Numbered<T>, T>(items: &[T], last: Option<u64>) -> &[T]
    requires { IsNonDecreasingBy N.number_of items.now }
    ensures { result.now ≡ filter (is_behind N.number_of last) items.now }
{
    match last {
        Some(last) => items
            .split_at(items.partition_point(|item| N::number(item) <= last))
            .1,
        None => items,
    }
}
