//! What stands at places.
ghost use Rattle.std.specs.Prelude.{◌≡◌, ℕ, ◌++◌, option_to_list};
ghost use Rattle.std.specs.Fn.{ComputesKey};
ghost use Rattle.base.specs.Least.{least_by};

use std::cmp::min_by_key;

/// Of both, the one whose place is less; the first, if both stand at one place.
pub fn earlier<T: Copy, F: FnMut(&T) -> u64 + Drop>(
    first: Option<T>,
    other: Option<T>,
    place: F,
) -> Option<T>
    requires { F.IsAlwaysCallable place }
    ensures { (number : T → ℕ) → ComputesKey F.FnMut number place →
        result ≡ least_by number (option_to_list first ++ option_to_list other) }
{
    match (first, other) {
        (Some(one), Some(two)) => Some(min_by_key(one, two, place)),
        (Some(one), None) => Some(one),
        (None, other) => other,
    }
}
