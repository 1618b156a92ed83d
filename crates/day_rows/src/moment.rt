//! Which messages a query as of a moment counts.
ghost use Rattle.std.specs.Prelude.{◌≡◌};
ghost use Rattle.day_rows.specs.Messages.{is_counted};

use base::limits::NANOSECONDS;
use itch_messages::Message;

/// Whether a message counts: there is no moment, or the message's time is not past it. The moment is in seconds since
/// midnight; the time is the header's (TotalView-ITCH 5.0, section 1), in nanoseconds, and the moment itself counts.
#[inline(always)]
pub fn counts(as_of: Option<u32>, message: &Message) -> bool
    ensures { result ≡ is_counted as_of message.now }
{
    let Some(moment) = as_of else {
        return true;
    };
    match message.time() {
        Some(time) => time <= u64::from(moment) * NANOSECONDS,
        None => true,
    }
}
