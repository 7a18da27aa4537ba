// Who sends a command, and the serial that it bears.
ghost use Rattle.std.specs.Prelude.{◌≡◌};
ghost use Rattle.frames.specs.Sender.{origin_number, ReadsOrigin};

// Who sent a command, by its number in a frame.
#[derive(Clone, Copy, PartialEq, Eq)]
pub enum Origin {
    // ground, through MCS
    Ground = 1,
    // the payload
    Payload = 2,
}

// A byte that is no origin's number.
#[derive(Clone, Copy, PartialEq, Eq)]
pub struct NoOrigin(pub u8);

// A command's sender: its origin, and the serial that it has from there.
#[derive(Clone, Copy)]
pub struct Sender {
    pub origin: Origin,
    pub serial: u16,
}

impl Origin {
    // Its number in a frame and in a report.
    pub fn number(self) -> u8
        ensures { result ≡ origin_number self }
    {
        self as u8
    }
}

impl TryFrom<u8> for Origin {
    type Error = NoOrigin;

    ghost try_from_gives = { ReadsOrigin };

    fn try_from(byte: u8) -> Result<Self, NoOrigin> {
        match byte {
            1 => Ok(Origin::Ground),
            2 => Ok(Origin::Payload),
            _ => Err(NoOrigin(byte)),
        }
    }
}
