// Which texts may be keyed.
// Refusals 11, 12 and 13, in that order, for any bytes at all.
ghost use Rattle.std.specs.Prelude.{◌≡◌};
ghost use Rattle.std.proofs.Common.{rules};
ghost use Rattle.morse.specs.Texts.{known, is_edged, fault_of, fault_number};

use crate::signs::sign_of;
use basics::Refusal;

// The most bytes of a text.
pub const LONGEST: usize = 64;

// What stands between two words.
pub const SPACE: u8 = b' ';

// Why a text may not be keyed, by the page's numbers: the first of the three that applies.
#[derive(Clone, Copy, Debug, PartialEq, Eq)]
pub enum Fault {
    // It is over 64 bytes.
    TextTooLong = 11,
    // A byte is neither a space nor of A to Z, 0 to 9 and . , ? /
    NotKeyable = 12,
    // A space is first, last or doubled.
    BadSpace = 13,
}

impl Refusal for Fault {
    ghost number_of = { fault_number };

    ghost is_told = { Prim.search rules };

    fn number(self) -> u8 {
        self as u8
    }
}

// Whether a byte is of the alphabet.
#[tactic(auto, using(crate::proofs::TextsLaws::signed_len))]
fn is_known(c: u8) -> bool
    ensures { result ≡ known c }
{
    c == SPACE || 0 < sign_of(c).len
}

// Whether a space is first or last.
fn is_edged(text: &[u8]) -> bool
    ensures { result ≡ is_edged text.now }
{
    matches!(text, [SPACE, ..] | [.., SPACE])
}

// Whether a text may be keyed, and if not, why.
pub fn fault_of(text: &[u8]) -> Result<(), Fault>
    ensures { result ≡ fault_of text.now }
{
    if LONGEST < text.len() {
        return Err(Fault::TextTooLong);
    }
    let mut doubled = false;
    let mut before = 0;
    for c in text {
        if *c == SPACE {
            doubled |= before == SPACE;
        } else if !is_known(*c) {
            return Err(Fault::NotKeyable);
        }
        before = *c;
    }
    if is_edged(text) || doubled {
        return Err(Fault::BadSpace);
    }
    Ok(())
}
