// Reads a keying back.
// Refusal 15 unless the units are exactly the keying of a text that passes 11 to 13, then 14; else that text, with its
// length.
ghost use Rattle.std.specs.Prelude.{◌≡◌};
ghost use Rattle.std.proofs.Common.{rules};
ghost use Rattle.basics.specs.Outcome.{outcome};
ghost use Rattle.hearing.specs.Reading.{read_fault_number, Read};

use crate::decoding::decode;
use basics::Refusal;
use morse::texts::LONGEST;

// Why units are not read, by the page's numbers.
#[derive(Clone, Copy, Debug, PartialEq, Eq)]
pub enum ReadFault {
    // The room is shorter than the text.
    NoRoom = 14,
    // They are not exactly the keying of a text.
    NotAKeying = 15,
}

impl Refusal for ReadFault {
    ghost number_of = { read_fault_number };

    ghost is_told = { Prim.search rules };

    fn number(self) -> u8 {
        self as u8
    }
}

// Reads the text of which the units are exactly the keying, and gives its length. It is kept aside, until it is known to
// fit.
pub fn read(units: &[u8], text: &mut [u8]) -> Result<usize, ReadFault>
    ensures { Read units.now text.old (outcome result text.new) }
{
    // on the stack, since there is no heap
    let mut kept = [0u8; LONGEST];
    let n = match decode(units, &mut kept) {
        Some(n) if n <= LONGEST => n,
        _ => return Err(ReadFault::NotAKeying),
    };
    if text.len() < n {
        return Err(ReadFault::NoRoom);
    }
    Ok(basics::copy(&kept[..n], text))
}
