// The kinds of frames: their numbers, and their total lengths.
ghost use Rattle.std.specs.Prelude.{◌≡◌};
ghost use Rattle.frames.specs.Kind.{kind_number, known_total, total_of, HasTotals, ReadsKind};

// What a frame is, by its first byte.
#[derive(Clone, Copy, PartialEq, Eq)]
pub enum Kind {
    // the mask of shorts seen in a second
    Tick = 1,
    // a reading of the battery
    Battery = 2,
    // whether the antennas are deployed
    Antennas = 3,
    // a module is to be requested on or off
    Order = 4,
    // both thresholds
    Thresholds = 5,
    // a module is to be requested on for so many minutes
    Timed = 6,
    // a message for the beacon
    Greeting = 7,
}

// A byte that is no kind's number.
#[derive(Clone, Copy, PartialEq, Eq)]
pub struct NoKind(pub u8);

// The bytes of a greeting.
pub(crate) const GREETING_BYTES: usize = 22;

// The number of a report, which is only written, and so is no `Kind`: each match on what was read would have an arm for it.
pub const REPORT: u8 = 0x81;

// The bytes of a report.
pub const REPORT_BYTES: usize = 11;

// How many numbers there are up to the last kind's.
const NUMBERS: usize = 8;

// The total of each number; 0 where it is no kind.
const TOTALS: [u8; NUMBERS] = [
    0, // none
    2, // tick
    3, // battery
    2, // antennas
    6, // order
    8, // thresholds
    7, // timed order
    GREETING_BYTES as u8,
];

// The table: each entry is the total of its number.
fn totals() -> [u8; NUMBERS]
    ensures { HasTotals result }
{
    TOTALS
}

impl Kind {
    // Its number in a frame and in a report.
    pub fn number(self) -> u8
        ensures { result ≡ kind_number self }
    {
        self as u8
    }

    // The total length of its frames. By place in a table of bytes: a match that gives lengths costs eight bytes of
    // constants a kind.
    pub fn total(self) -> usize
        ensures { result ≡ total_of (kind_number self) }
    {
        let table = totals();
        usize::from(table[usize::from(self.number())])
    }
}

impl TryFrom<u8> for Kind {
    type Error = NoKind;

    ghost try_from_gives = { ReadsKind };

    fn try_from(byte: u8) -> Result<Self, NoKind> {
        match byte {
            1 => Ok(Kind::Tick),
            2 => Ok(Kind::Battery),
            3 => Ok(Kind::Antennas),
            4 => Ok(Kind::Order),
            5 => Ok(Kind::Thresholds),
            6 => Ok(Kind::Timed),
            7 => Ok(Kind::Greeting),
            _ => Err(NoKind(byte)),
        }
    }
}

// The total length of a frame that begins with this byte, if it is a kind's number.
#[tactic(auto, unfolding(crate::specs::Kind::known_total, crate::specs::Kind::total_of))]
pub fn total(byte: u8) -> Option<usize>
    ensures { result ≡ known_total byte }
{
    let kind = Kind::try_from(byte).ok()?;
    Some(kind.total())
}
