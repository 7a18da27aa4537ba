// Keys a text.
// Refusals 11 to 14 in their order, with the room untouched; else the units and their count.
ghost use Rattle.std.specs.Prelude.{◌≡◌};
ghost use Rattle.std.proofs.Common.{rules};
ghost use Rattle.basics.specs.Outcome.{outcome};
ghost use Rattle.morse.specs.declared.keying.KeyFault.TheVariants.{Text};
ghost use Rattle.morse.specs.Keying.{key_fault_number, key_of};

use crate::answers::NO_ROOM;
use crate::texts::{Fault, fault_of};
use crate::units::put_text;
use basics::Refusal;

// Why a text is not keyed.
#[derive(Clone, Copy, Debug, PartialEq, Eq)]
pub enum KeyFault {
    // The text may not be keyed.
    Text(Fault),
    // The room is shorter than the units.
    NoRoom,
}

impl From<Fault> for KeyFault {
    ghost from_gives = { λ fault refusal. refusal ≡ Text fault };

    fn from(fault: Fault) -> KeyFault {
        KeyFault::Text(fault)
    }
}

impl Refusal for KeyFault {
    ghost number_of = { key_fault_number };

    ghost is_told = { Prim.search rules };

    fn number(self) -> u8 {
        match self {
            KeyFault::Text(fault) => fault.number(),
            KeyFault::NoRoom => NO_ROOM,
        }
    }
}

// Keys a text: its units, one byte each, into the first bytes of the room, and how many they are. They are counted first,
// since a refusal leaves the room as it was.
pub fn key(text: &[u8], units: &mut [u8]) -> Result<usize, KeyFault>
    ensures { outcome result units.new ≡ key_of text.now units.old }
{
    fault_of(text)?;
    let n = put_text(text, &mut []);
    if units.len() < n {
        return Err(KeyFault::NoRoom);
    }
    Ok(put_text(text, units))
}
