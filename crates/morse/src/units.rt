// A text's units, stored one byte each as far as a room goes.
// Nothing here asks whether the text may be keyed or the room is long enough: `keying` does.
ghost use Rattle.std.specs.Prelude.{◌≡◌, ◌+◌, ◌^◌, ◌≤◌, ◌<◌, length, set, replicate};
ghost use Rattle.std.proofs.lemmas.List.Edits.{sets};
ghost use Rattle.morse.specs.SignTable.{marks_of};
ghost use Rattle.morse.specs.Texts.{longest};
ghost use Rattle.morse.specs.Units.{gap_after, sign_units, units_of, Stored};

use crate::signs::{Sign, sign_of};
use crate::texts::{LONGEST, SPACE};

// The gap between two marks of a sign, in units up.
pub const INSIDE_SIGN: usize = 1;

// The gap between two signs.
pub const BETWEEN_SIGNS: usize = 3;

// The gap between two words.
pub const BETWEEN_WORDS: usize = 7;

// The most units that a character takes: the 19 of the longest signs, those of 0 and the comma, and the gap of 3 after them.
const PER_CHARACTER: usize = 22;

// The most units of a text, 1405: nothing follows the last sign. It is the header's EMS_UNITS_BYTES.
pub const MOST_UNITS: usize = PER_CHARACTER * LONGEST - BETWEEN_SIGNS;

// Stores v at a place of the room, and nothing where the room has no such place. The two stand apart, here and below: in a
// struct they would hold the caller's room, and each clause would have to speak of it by way of the struct.
pub fn put(room: &mut [u8], at: usize, v: u8)
    ensures { room.new ≡ set room.old at v }
{
    if at < room.len() {
        room[at] = v;
    }
}

// Stores n times v from a place on, and gives the place after them.
fn put_run(room: &mut [u8], at: usize, n: usize, v: u8) -> usize
    requires { at + n < 2 ^ 63 }
    ensures { (result ≡ at + n) × (room.new ≡ sets room.old at (replicate n v)) }
{
    let end = at + n;
    for i in at..end {
        put(room, i, v);
    }
    end
}

// Stores the marks of a sign, the first after a gap, and gives the place after them.
fn put_sign(room: &mut [u8], at: usize, gap: usize, sign: Sign) -> usize
    requires { at + length (sign_units gap (marks_of sign)) < 2 ^ 63 }
    ensures { Stored at (sign_units gap (marks_of sign)) room.old result room.new }
{
    let mut i = at;
    let mut up = gap;
    let mut marks = sign.marks;
    for _ in 0..sign.len {
        let down = put_run(room, i, up, 0);
        i = put_run(room, down, 1 + 2 * usize::from(marks % 2), 1);
        up = INSIDE_SIGN;
        marks /= 2;
    }
    i
}

// The units up before the next sign, after a byte.
fn gap_after(c: u8) -> usize
    ensures { result ≡ gap_after c }
{
    if c == SPACE {
        BETWEEN_WORDS
    } else {
        BETWEEN_SIGNS
    }
}

// Stores a text's units from the front of the room, as far as it goes, and gives how many the text has.
pub(crate) fn put_text(text: &[u8], room: &mut [u8]) -> usize
    requires { length text.now ≤ longest }
    ensures { Stored 0 (units_of text.now) room.old result room.new }
{
    let mut at = 0;
    let mut gap = 0;
    for c in text {
        at = put_sign(room, at, gap, sign_of(*c));
        gap = gap_after(*c);
    }
    at
}
