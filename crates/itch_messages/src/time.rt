//! When a message was sent.
ghost use Rattle.std.specs.Prelude.{◌≡◌};
ghost use Rattle.itch_messages.specs.Body.{time_of_message};

use crate::message::Message;

impl Message {
    /// The time of the message's header, in nanoseconds since midnight; what is skipped has none.
    /// TotalView-ITCH 5.0, section 1.
    #[inline(always)]
    pub fn time(&self) -> Option<u64>
        ensures { result ≡ time_of_message self.now }
    {
        let header = match self {
            Message::Add(add) => add.header,
            Message::Executed(executed) => executed.header,
            Message::ExecutedAt(executed) => executed.header,
            Message::Replace(replace) => replace.header,
            Message::Trade(trade) => trade.header,
            Message::Cross(cross) => cross.header,
            Message::Broken(broken) => broken.header,
            Message::Directory(directory) => directory.header,
            Message::Skipped => return None,
        };
        Some(header.time)
    }
}
