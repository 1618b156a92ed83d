//! A port that keeps what it is sent.
ghost use Rattle.std.specs.Prelude.{◌≡◌, []};

use pipelines::Port;
use std::alloc::{Allocator, Global};
use std::marker::Model;

/// Keeps what it is sent, in order, and tells it. It refuses a message if there is no memory for it.
///
/// Contracts see the messages.
#[derive(Drop)]
pub struct KeepingPort<M, A: Allocator = Global> {
    messages: Vec<M, A>,
}

impl<M, A: Allocator> Model for KeepingPort<M, A> {
    ghost use Rattle.std.specs.Prelude.{List};

    ghost Value = { List M };

    ghost view = { λ a. a.messages.items };
}

impl<M, A: Allocator> KeepingPort<M, A> {
    /// It has taken nothing.
    pub fn new(alloc: A) -> Self
        ensures { result ≡ [] }
    {
        KeepingPort {
            messages: Vec::new(alloc),
        }
    }

    /// What it has taken, the earliest first.
    pub fn items(&self) -> &[M]
        ensures { result.now ≡ self.now }
    {
        self.messages.as_slice()
    }
}

impl<M, A: Allocator> Port<M> for KeepingPort<M, A> {
    ghost taken = { λ messages. messages };

    ghost Tells = { Unit {0} };

    fn send(&mut self, message: M) -> Result<(), M> {
        match self.messages.push(message) {
            Ok(()) => Ok(()),
            Err(refused) => Err(refused.value),
        }
    }
}
