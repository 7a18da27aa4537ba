// A line's text as it is made, and the parts of a line, each put at its end.
ghost use Rattle.std.specs.Prelude.{◌≡◌, ℕ, ◌+◌, ◌≤◌, List, [], length, take, drop};
ghost use Rattle.basics.specs.Outcome.{outcome};
ghost use Rattle.frame_log.specs.Text.{decimal, hex, spaced, most_digits, most_decimal, most_hex, Put};
ghost use Rattle.frame_log.specs.Line.{longest, placed};

use crate::line::LONGEST;
use basics::{copy, hex_digit};
use std::marker::Model;

// The decimal digits of the largest number of 64 bits.
const MOST_DIGITS: usize = 20;

// Puts the decimal digits of a number at the back, and gives the first one's place.
fn decimal(n: u64, digits: &mut [u8; MOST_DIGITS]) -> usize
    ensures within { result ≤ most_digits }
    ensures text { drop result digits.new ≡ decimal n }
{
    let mut rest = n;
    for i in (0..MOST_DIGITS).rev() {
        digits[i] = b'0' + (rest % 10) as u8;
        if rest < 10 {
            return i;
        }
        rest /= 10;
    }
    0
}

// A line as it is made: it has place for every one.
#[derive(Drop)]
pub(crate) struct Text {
    bytes: [u8; LONGEST],
    length: usize,
}

impl Model for Text {
    ghost Value = { List ℕ };

    ghost view = { λ t. take t.length t.bytes };

    ghost invariant = { λ t. t.length ≤ longest };
}

impl Text {
    // Nothing yet.
    pub(crate) fn new() -> Self
        ensures { result ≡ [] }
    {
        Text {
            bytes: [0; LONGEST],
            length: 0,
        }
    }

    // Bytes as they are.
    pub(crate) fn put_bytes(&mut self, bytes: &[u8])
        requires { length self.old + length bytes.now ≤ longest }
        ensures { Put bytes.now (length bytes.now) self.old self.new }
    {
        self.length += copy(bytes, &mut self.bytes[self.length..]);
    }

    // A number in decimal.
    #[tactic(auto, using(crate::proofs::TextLaws::length_decimal))]
    pub(crate) fn put_decimal(&mut self, n: u64)
        requires { length self.old + most_digits ≤ longest }
        ensures { Put (decimal n) most_digits self.old self.new }
    {
        let mut digits = [0; MOST_DIGITS];
        let first = decimal(n, &mut digits);
        self.put_bytes(&digits[first..])
    }

    // A space and a number in decimal.
    #[tactic(auto, unfolding(crate::specs::Text::spaced))]
    pub(crate) fn put_number(&mut self, n: u64)
        requires { length self.old + most_decimal ≤ longest }
        ensures { Put (spaced (decimal n)) most_decimal self.old self.new }
    {
        self.put_bytes(b" ");
        self.put_decimal(n)
    }

    // A space and a byte as two hex digits, in upper case.
    #[tactic(auto, unfolding(crate::specs::Text::spaced, crate::specs::Text::hex))]
    pub(crate) fn put_hex(&mut self, byte: u8)
        requires { length self.old + most_hex ≤ longest }
        ensures { Put (spaced (hex byte)) most_hex self.old self.new }
    {
        self.put_bytes(&[b' ', hex_digit(byte / 16), hex_digit(byte % 16)])
    }

    // Writes the text at the front of the room, and gives its length. A room shorter than LONGEST stays as it is.
    #[tactic(auto, unfolding(crate::specs::Line::placed))]
    pub(crate) fn place(&self, room: &mut [u8]) -> Option<usize>
        ensures { outcome result room.new ≡ placed self.now room.old }
    {
        if room.len() < LONGEST {
            return None;
        }
        Some(copy(&self.bytes[..self.length], room))
    }
}
