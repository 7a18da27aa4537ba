// The text of which some units are the keying, heard in one pass.
// It is strict: a mark is 1 or 3 units long, a gap 1, 3 or 7, each sign is known, and nothing follows the last.
ghost use Rattle.std.specs.Prelude.{◌≡◌, ◌+◌, ◌^◌, ◌<◌};
ghost use Rattle.hearing.specs.Decoding.{after_gap, told_by, last_of, heard, Decoded};

use crate::numbers::{after_mark, byte_of};
use morse::texts::SPACE;
use morse::units::{BETWEEN_SIGNS, BETWEEN_WORDS, INSIDE_SIGN, put};

// What is heard of the sign at hand: its number without the last mark, and for how many units the key was down at that
// mark, and then up.
#[derive(Clone, Copy)]
struct Ear {
    number: u8,
    down: usize,
    up: usize,
}

// What is heard of a sign by its first unit.
const BEGUN: Ear = Ear {
    number: 1,
    down: 1,
    up: 0,
};

// What a unit tells.
#[derive(Clone, Copy)]
enum Told {
    // The sign at hand goes on.
    On(Ear),
    // The sign of this byte is over, and another begun.
    Sign(u8),
    // So is the word.
    Word(u8),
}

// What a gap tells, once the key is down again after marks with this number; nothing where no keying has it.
#[tactic(auto, unfolding(crate::specs::Decoding::after_gap))]
fn after_gap(number: u8, gap: usize) -> Option<Told>
    ensures { result ≡ after_gap number gap }
{
    if gap == INSIDE_SIGN {
        return (number != 0).then_some(Told::On(Ear { number, ..BEGUN }));
    }
    let byte = byte_of(number)?;
    match gap {
        BETWEEN_SIGNS => Some(Told::Sign(byte)),
        BETWEEN_WORDS => Some(Told::Word(byte)),
        _ => None,
    }
}

// What one more unit tells; nothing where no keying has it.
#[tactic(auto, unfolding(crate::specs::Decoding::told_by))]
fn tell(ear: Ear, unit: u8) -> Option<Told>
    requires { (ear.down + 1 < 2 ^ 64) × (ear.up + 1 < 2 ^ 64) }
    ensures { result ≡ told_by ear unit }
{
    match unit {
        0 => Some(Told::On(Ear {
            up: ear.up + 1,
            ..ear
        })),
        1 if ear.up == 0 => Some(Told::On(Ear {
            down: ear.down + 1,
            ..ear
        })),
        1 => after_gap(after_mark(ear.number, ear.down)?, ear.up),
        _ => None,
    }
}

// The byte of a sign that nothing follows; none where no sign is over.
#[tactic(auto, unfolding(crate::specs::Decoding::last_of))]
fn last(ear: Ear) -> Option<u8>
    ensures { result ≡ last_of ear }
{
    if ear.up == 0 {
        byte_of(after_mark(ear.number, ear.down)?)
    } else {
        None
    }
}

// Writes the text, as far as the room goes, and gives its length, if there is one.
pub(crate) fn decode(units: &[u8], text: &mut [u8]) -> Option<usize>
    ensures { Decoded 0 (heard units.now) text.old result text.new }
{
    if units.is_empty() {
        return Some(0);
    }
    let mut ear = Ear { down: 0, ..BEGUN };
    let mut at = 0;
    for unit in units {
        match tell(ear, *unit)? {
            Told::On(next) => ear = next,
            Told::Sign(byte) => {
                put(text, at, byte);
                at += 1;
                ear = BEGUN;
            }
            Told::Word(byte) => {
                put(text, at, byte);
                put(text, at + 1, SPACE);
                at += 2;
                ear = BEGUN;
            }
        }
    }
    put(text, at, last(ear)?);
    Some(at + 1)
}
