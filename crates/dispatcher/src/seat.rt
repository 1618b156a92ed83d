//! A worker's token.
ghost use Rattle.std.specs.Prelude.{◌≡◌, [], length};

use crate::rule::View;

/// A worker's seat at a dispatcher, which each of its calls takes. It has no bytes, and may go to another thread.
/// Contracts see the dispatcher that it belongs to, its number, its claims, the tasks that it marked, and the tasks
/// that it marked or saw marked.
#[derive(Drop)]
pub struct Seat {
    pub(crate) inner: atomic_table::Seat<(), View>,
    ghost no_slot: { inner.me.1 ≡ [] },
    ghost one_number: { length inner.me.0.numbers ≡ 1 },
}
