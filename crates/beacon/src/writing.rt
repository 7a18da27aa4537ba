// The beacon's text into a room.
// Refusals 1, then 21, then 14, with the room untouched; else the text and its length.
ghost use Rattle.std.specs.Prelude.{◌≡◌};
ghost use Rattle.std.proofs.Common.{rules};
ghost use Rattle.basics.specs.Outcome.{outcome};
ghost use Rattle.beacon.specs.Writing.{fault_number, beacon_of};

use crate::text::{form_bytes, full_text, has_text};
use basics::Refusal;
use supervisor::form::Form;
use supervisor::state::State;

// Why no text is written, by the page's numbers.
#[derive(Clone, Copy, Debug, PartialEq, Eq)]
pub enum WriteFault {
    // The state is outside its ranges.
    BadState = 1,
    // The room is shorter than the text.
    NoRoom = 14,
    // No message is kept.
    NoMessage = 21,
}

impl Refusal for WriteFault {
    ghost number_of = { fault_number };

    ghost is_told = { Prim.search rules };

    fn number(self) -> u8 {
        self as u8
    }
}

// Writes the text of a form into the front of the room, and gives its length. Bytes past it stay.
pub fn write(state: State, form: Form, text: &mut [u8]) -> Result<usize, WriteFault>
    ensures { outcome result text.new ≡ beacon_of form state text.old }
{
    if !state.in_range() {
        return Err(WriteFault::BadState);
    }
    let length = state.message.length;
    if !has_text(form, length) {
        return Err(WriteFault::NoMessage);
    }
    let n = form_bytes(form, length);
    if text.len() < n {
        return Err(WriteFault::NoRoom);
    }
    Ok(basics::copy(&full_text(state)[0..n], text))
}
