// A frame is news or a command: news has no sender, a command has one.
ghost use Rattle.std.specs.Prelude.{◌≡◌};
ghost use Rattle.frames.specs.Frame.{bare_head, head_of};

use crate::command::Command;
use crate::kind::Kind;
use crate::sender::Sender;

// A frame that passed checks 3 to 7.
#[derive(Clone, Copy)]
pub enum Frame {
    // the mask of shorts seen in this second
    Tick(u8),
    // millivolts
    Battery(u16),
    // whether the antennas are deployed
    Antennas(bool),
    // what a sender commands, with a serial
    Command { sender: Sender, command: Command },
}

// How a report names a frame: the kind answered, its origin and its serial.
#[derive(Clone, Copy)]
pub struct Head {
    pub kind: Kind,
    pub origin: u8,
    pub serial: u16,
}

// A head without origin and serial: a report has zeros for them, and nothing else reads a head, so they are no Options.
fn bare(kind: Kind) -> Head
    ensures { result ≡ bare_head kind }
{
    Head {
        kind,
        origin: 0,
        serial: 0,
    }
}

impl Frame {
    // Its head in a report.
    pub fn head(self) -> Head
        ensures { result ≡ head_of self }
    {
        match self {
            Frame::Tick(_) => bare(Kind::Tick),
            Frame::Battery(_) => bare(Kind::Battery),
            Frame::Antennas(_) => bare(Kind::Antennas),
            Frame::Command { sender, command } => Head {
                kind: command.kind(),
                origin: sender.origin.number(),
                serial: sender.serial,
            },
        }
    }
}
