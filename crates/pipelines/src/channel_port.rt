//! A port over a channel.
ghost use Rattle.std.specs.Prelude.{[]};

use crossbeam_channel::Sender;
use std::sync::Wait;
use workers::Port;

/// Sends into a channel. It refuses a message if the receiver is gone or there is no memory, and tells nothing.
#[derive(Drop)]
pub struct ChannelPort<'r, M, R: Wait> {
    rt: &'r R,
    to: Sender<M>,
}

impl<'r, M, R: Wait> ChannelPort<'r, M, R> {
    /// Sends into this channel, and waits by this handle while another thread holds the channel's lock.
    pub fn new(rt: &'r R, to: Sender<M>) -> Self {
        ChannelPort { rt, to }
    }
}

impl<M: Drop, R: Wait> Port<M> for ChannelPort<'_, M, R> {
    ghost taken = { λ _. [] };

    ghost Tells = { ⊥ };

    fn send(&mut self, message: M) -> Result<(), M> {
        self.to
            .send(self.rt, message)
            .map_err(|refused| refused.into_inner())
    }
}
