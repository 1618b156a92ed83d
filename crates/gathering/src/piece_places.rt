//! Places that hold something or nothing.
ghost use Rattle.std.specs.Prelude.{◌≡◌, ℕ, IfOk, length, get_or, if◌then◌else◌, nat_lt, replicate, None};
ghost use Rattle.std.specs.Option.{option_or};

use crate::OutOfMemory;
use std::alloc::Allocator;

/// `count` places, all empty.
pub(crate) fn empty_places<T: Drop, A: Allocator>(
    alloc: A,
    count: u32,
) -> Result<Vec<Option<T>, A>, OutOfMemory>
    ensures { IfOk result (λ places. places.items ≡ replicate count None) }
{
    let mut places = Vec::with_capacity(alloc, count as usize)?;
    for made in 0..count {
        places.push(None)?;
    }
    Ok(places)
}

/// Moves what the others hold into the places that are empty, and empties the places below `from`.
pub(crate) fn merge_places<T: Drop, A: Allocator>(
    own: &mut Vec<Option<T>, A>,
    mut others: Vec<Option<T>, A>,
    from: u32,
)
    requires { length own.old.items ≡ length others.items }
    ensures count { length own.new.items ≡ length own.old.items }
    ensures places { (k : ℕ) → get_or own.new.items k None ≡ (if nat_lt k from then None
        else option_or (get_or own.old.items k None) (get_or others.items k None)) }
{
    while let Some(other) = others.pop() {
        let at = others.len();
        merge_place(&mut own[at], other, at < from as usize);
    }
}

/// Moves what the other holds into an empty place, or empties it.
fn merge_place<T: Drop>(own: &mut Option<T>, other: Option<T>, emptied: bool)
    ensures { own.new ≡ (if emptied then None else option_or own.old other) }
{
    let kept = own.take().or(other);
    *own = if emptied { None } else { kept };
}
