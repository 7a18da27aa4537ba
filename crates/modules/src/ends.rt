// The ends of the mission four: how long each stays requested. A core module has none: there is no place for one.
ghost use Rattle.std.specs.Prelude.{◌≡◌, ◌-◌, eqb};
ghost use Rattle.basics.specs.Choice.{when◌then◌else◌};
ghost use Rattle.modules.specs.Ends.{no_ends, ends_fallen, ends_over, with_end, ends_in_range};

use crate::groups::{ADCS, PAYLOAD, SBAND1, SBAND2};

// Seconds until the module's request goes off; 0 where no end is running. An Option would be no plainer: 0 is where a count
// ends by itself, and what an image has. By name: an array by module number would have a place for the core modules too.
#[derive(Clone, Copy, Default)]
pub struct Ends {
    pub adcs: u32,
    pub payload: u32,
    pub sband1: u32,
    pub sband2: u32,
}

// The longest end: seconds of a day.
const LONGEST: u32 = 86400;

// The bit of ADCS in a mask.
const ADCS_BIT: u8 = 1 << ADCS;

// Of PAYLOAD.
const PAYLOAD_BIT: u8 = 1 << PAYLOAD;

// Of SBAND1.
const SBAND1_BIT: u8 = 1 << SBAND1;

// Of SBAND2.
const SBAND2_BIT: u8 = 1 << SBAND2;

// A bit, if an end is in its last second.
fn last_bit(end: u32, bit: u8) -> u8
    ensures { result ≡ (when eqb end 1 then bit else 0) }
{
    if end == 1 { bit } else { 0 }
}

// No end is running.
pub fn none() -> Ends
    ensures { result ≡ no_ends }
{
    Ends::default()
}

impl Ends {
    // The ends after one second: each running one falls by 1.
    #[tactic(auto, unfolding(crate::specs::Ends::ends_fallen))]
    pub fn fall(self) -> Ends
        ensures { result ≡ ends_fallen self }
    {
        Ends {
            adcs: self.adcs.saturating_sub(1),
            payload: self.payload.saturating_sub(1),
            sband1: self.sband1.saturating_sub(1),
            sband2: self.sband2.saturating_sub(1),
        }
    }

    // The mask of the modules whose end reaches 0 in this second.
    #[tactic(auto, unfolding(crate::specs::Ends::ends_over))]
    pub fn over(self) -> u8
        ensures { result ≡ ends_over self }
    {
        last_bit(self.adcs, ADCS_BIT)
            + last_bit(self.payload, PAYLOAD_BIT)
            + last_bit(self.sband1, SBAND1_BIT)
            + last_bit(self.sband2, SBAND2_BIT)
    }

    // The ends with that of one module set; a module that has none is passed over.
    #[tactic(auto, unfolding(crate::specs::Ends::with_end))]
    pub fn with_end(self, which: u8, seconds: u32) -> Ends
        ensures { result ≡ with_end which seconds self }
    {
        match which {
            ADCS => Ends {
                adcs: seconds,
                ..self
            },
            PAYLOAD => Ends {
                payload: seconds,
                ..self
            },
            SBAND1 => Ends {
                sband1: seconds,
                ..self
            },
            SBAND2 => Ends {
                sband2: seconds,
                ..self
            },
            _ => self,
        }
    }

    // Whether no end is longer than the longest.
    #[tactic(auto, unfolding(crate::specs::Ends::ends_in_range))]
    pub fn in_range(self) -> bool
        ensures { result ≡ ends_in_range self }
    {
        (self.adcs <= LONGEST)
            & (self.payload <= LONGEST)
            & (self.sband1 <= LONGEST)
            & (self.sband2 <= LONGEST)
    }
}
