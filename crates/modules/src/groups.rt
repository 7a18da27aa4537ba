// The two groups of modules as masks, and the mission four by their numbers.
ghost use Rattle.std.specs.Prelude.{◌≡◌};
ghost use Rattle.modules.specs.Groups.{is_mission};

use crate::stage::has;

// The core four: 0 MCS, 1 COMM1, 2 COMM2, 5 I2C.
pub const CORE: u8 = 0x27;

// The mission four: 3 ADCS, 4 PAYLOAD, 6 SBAND1, 7 SBAND2.
pub const MISSION: u8 = 0xD8;

// A module is told by its number, and not by an enum: masks and arrays go by it, and what is asked of one answers for every
// number, from 8 on too (`has_one`, `one_bit_one`, `one_request_one`, `with_end_one`).

// ADCS, of the mission four.
pub const ADCS: u8 = 3;

// PAYLOAD, of the mission four.
pub const PAYLOAD: u8 = 4;

// SBAND1, of the mission four.
pub const SBAND1: u8 = 6;

// SBAND2, of the mission four.
pub const SBAND2: u8 = 7;

// Whether a module is one of the mission four.
pub fn is_mission(which: u8) -> bool
    ensures { result ≡ is_mission which }
{
    has(MISSION, usize::from(which))
}
