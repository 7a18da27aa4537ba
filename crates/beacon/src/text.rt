// The bytes of the beacon's text: the basic one is the front of the complete one, and that of the extended one.
ghost use Rattle.std.specs.Prelude.{◌≡◌, ◌∷◌, ◌++◌, ◌<◌};
ghost use Rattle.basics.specs.Bytes.{space};
ghost use Rattle.supervisor.specs.State.{HasMasks};
ghost use Rattle.beacon.specs.Text.{mode_letter, figure, has_text, form_bytes};
ghost use Rattle.beacon.specs.Text.{complete_text, full_text};

use basics::hex_digit;
use frames::greeting::LONGEST;
use supervisor::form::Form;
use supervisor::state::{Mode, State};

// The bytes of the basic text.
const BASIC_BYTES: usize = 10;

// The bytes of the complete text.
const COMPLETE_BYTES: usize = 16;

// The bytes of the complete text, and the space before the message.
const GREETED_BYTES: usize = 17;

// The most bytes of the extended text.
const MOST_BYTES: usize = 33;

// The base of a mask's digits.
const HEX: u8 = 16;

// Whether a state with a message of this length has a text of this form: an extended one where the message is kept.
pub(crate) fn has_text(form: Form, length: u8) -> bool
    ensures { result ≡ has_text form length }
{
    match form {
        Form::Basic | Form::Complete => true,
        Form::Extended => 0 < length,
    }
}

// The bytes of a text of this form, with a message of this length.
pub(crate) fn form_bytes(form: Form, length: u8) -> usize
    ensures { result ≡ form_bytes form length }
{
    match form {
        Form::Basic => BASIC_BYTES,
        Form::Complete => COMPLETE_BYTES,
        Form::Extended => GREETED_BYTES + usize::from(length),
    }
}

// The letter of a mode.
fn letter(mode: Mode) -> u8
    ensures { result ≡ mode_letter mode }
{
    match mode {
        Mode::DeployWait(_) => b'D',
        Mode::Recovery => b'R',
        Mode::Safe => b'S',
    }
}

// A decimal digit of a tension, which has four, leading zeros too: no formatting of std's has a contract for them. A tension
// out of range may have more than 9 thousands: its text is never written.
fn figure(n: u16) -> u8
    requires { n < 100 }
    ensures { result ≡ figure n }
{
    b'0' + (n as u8)
}

// The complete text of a state, with the masks that it keeps.
#[tactic(auto, unfolding(crate::specs::Text::basic_text, crate::specs::Text::complete_text))]
fn complete_text(state: State) -> [u8; COMPLETE_BYTES]
    requires { HasMasks state }
    ensures { result ≡ complete_text state }
{
    let tension = state.battery.tension;
    let masks = state.masks;
    [
        b'E',
        b'M',
        b'S',
        b' ',
        letter(state.watch.mode),
        b' ',
        figure(tension / 1000),
        figure(tension / 100 % 10),
        figure(tension / 10 % 10),
        figure(tension % 10),
        b' ',
        hex_digit(masks.on / HEX),
        hex_digit(masks.on % HEX),
        b' ',
        hex_digit(masks.failed / HEX),
        hex_digit(masks.failed % HEX),
    ]
}

// A complete text, a space, and all bytes of a message.
#[tactic(auto, using(crate::proofs::TextLaws::message_copied))]
fn greeted(complete: [u8; COMPLETE_BYTES], message: [u8; LONGEST]) -> [u8; MOST_BYTES]
    ensures { result ≡ complete ++ (space ∷ message) }
{
    let mut all = [b' '; MOST_BYTES];
    basics::copy(&complete, &mut all);
    basics::copy(&message, &mut all[GREETED_BYTES..]);
    all
}

// The complete text of a state, a space, and all bytes of its message; of them a form has a front. On the stack: no heap.
pub(crate) fn full_text(state: State) -> [u8; MOST_BYTES]
    requires { HasMasks state }
    ensures { result ≡ full_text state }
{
    greeted(complete_text(state), state.message.text)
}
