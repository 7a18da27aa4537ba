// The message on the beacon: kept by a greeting, and sent in SAFE as often as was asked.
ghost use Rattle.std.specs.Prelude.{◌≡◌};
ghost use Rattle.supervisor.specs.State.{no_message};
ghost use Rattle.supervisor.specs.Message.{message_from, is_to_be_sent};

use crate::state::Message;
use frames::greeting::LONGEST;

// No message: all zeros.
pub(crate) fn none() -> Message
    ensures { result ≡ no_message }
{
    Message {
        repeats: 0,
        length: 0,
        text: [0; LONGEST],
    }
}

// The message that a greeting leaves: its own, or none where its length or its repeats are 0.
pub(crate) fn message_from(repeats: u8, length: u8, text: [u8; LONGEST]) -> Message
    ensures { result ≡ message_from repeats length text }
{
    if (length == 0) | (repeats == 0) {
        none()
    } else {
        Message {
            repeats,
            length,
            text,
        }
    }
}

impl Message {
    // Whether it is to be sent: it is kept, and its repeats are above 0.
    pub(crate) fn is_to_be_sent(self) -> bool
        ensures { result ≡ is_to_be_sent self }
    {
        (0 < self.length) & (0 < self.repeats)
    }
}
