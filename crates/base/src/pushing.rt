//! Adding to a vector that mostly has room, and a vector that has none to spare.
ghost use Rattle.std.specs.Prelude.{◌≡◌, ◌<◌, [], ◌∷◌, ◌++◌, IfOk, OnErr, OnOk, vec_capacity, vec_len};

use crate::OutOfMemory;
use std::alloc::Allocator;

/// Adds an item at the end. If there is no memory for it, the vector stays as it was. Only where there is no
/// room is another function called: rows are added one by one, some ten millions a second.
#[inline(always)]
pub fn push<T: Copy, A: Allocator>(items: &mut Vec<T, A>, item: T) -> Result<(), OutOfMemory>
    ensures pushed { OnOk result (items.new.items ≡ items.old.items ++ item ∷ []) }
    ensures unchanged { OnErr result (items.new.items ≡ items.old.items) }
{
    make_room(items)?;
    items.push_reserved(item);
    Ok(())
}

/// Makes room for an item more, if there is none.
#[inline(always)]
fn make_room<T, A: Allocator>(items: &mut Vec<T, A>) -> Result<(), OutOfMemory>
    ensures same { items.new.items ≡ items.old.items }
    ensures room { OnOk result (vec_len items.new < vec_capacity items.new) }
{
    if items.len() < items.capacity() {
        return Ok(());
    }
    grow(items)
}

/// Takes room for more items than there are.
#[cold]
#[inline(never)]
fn grow<T, A: Allocator>(items: &mut Vec<T, A>) -> Result<(), OutOfMemory>
    ensures same { items.new.items ≡ items.old.items }
    ensures room { OnOk result (vec_len items.new < vec_capacity items.new) }
{
    items.reserve(1)
}

/// The same items, in memory for just them.
pub fn copied<T: Copy, A: Allocator>(alloc: A, items: &[T]) -> Result<Vec<T, A>, OutOfMemory>
    ensures { IfOk result (λ copy. copy.items ≡ items.now) }
{
    let mut copy = Vec::with_capacity(alloc, items.len())?;
    copy.extend_from_slice(items)?;
    Ok(copy)
}
