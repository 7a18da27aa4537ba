// The numbers by which a sign is known while it is heard.
// A sign's number is 1, then doubled for each mark, and one more for a dash.
ghost use Rattle.std.specs.Prelude.{◌≡◌, ◌+◌, ◌^◌, ◌<◌, ◌≤◌, T};
ghost use Rattle.basics.specs.Tables.{all_below};
ghost use Rattle.morse.specs.Signs.{punctuation};
ghost use Rattle.hearing.specs.Numbers.{four_marks, is_byte, byte_among, byte_of};
ghost use Rattle.hearing.specs.Numbers.{past_by, figure_by, after_mark};

// The numbers of signs of up to four marks are below it, and so those of the letters.
const FOUR_MARKS: u8 = 32;

// Of up to five: the figures, and all signs that may have one more mark.
const FIVE_MARKS: u8 = 64;

// Of up to six, and so those of all signs.
const SIX_MARKS: u8 = 128;

// How many numbers the letters' table has.
const LETTERS: usize = FOUR_MARKS as usize;

// What the letters' table has for a number that no letter has: it is not of the alphabet.
const NO_LETTER: u8 = b'_';

// For how many units the key is down at a dot.
const DOT: usize = 1;

// For how many units it is at a dash.
const DASH: usize = 3;

// The letter of each sign's number in turn, and `_` for a number that no letter has. It is a byte for a number, and not an
// option: the constants that fly would be twice as long.
fn table() -> [u8; LETTERS]
    ensures { T (all_below (is_byte result) four_marks) }
{
    *b"__ETIANMSURWDKGOHVF_L_PJBXCYZQ__"
}

// The byte d past a first one, if a part of 32 is 32 once it is doubled d times; none if doubling never gives 32.
fn past(first: u8, part: u8) -> Option<u8>
    requires { (first + four_marks < 2 ^ 8) × (0 < part) × (part ≤ four_marks) }
    ensures { result ≡ past_by four_marks first part }
{
    // no index is counted: a part is doubled until a bound
    let mut byte = first;
    let mut rest = part;
    while rest < FOUR_MARKS {
        byte += 1;
        rest *= 2;
    }
    (rest == FOUR_MARKS).then_some(byte)
}

// The figure whose sign has a number, if any. It is worked out: a figure has d marks of one kind, then 5 - d of the
// other. With dashes last its number is 2^(5 - d) past 31, and the figure d; with dots last as much before 64, and the
// figure 5 + d.
fn figure(number: u8) -> Option<u8>
    requires { four_marks ≤ number }
    ensures { result ≡ figure_by number }
{
    if FIVE_MARKS <= number {
        return None;
    }
    if number % 2 == 1 {
        past(b'0', number - (FOUR_MARKS - 1))
    } else {
        past(b'5', FIVE_MARKS - number)
    }
}

// The byte that is no letter and no figure and whose sign has a number, if any.
fn other(number: u8) -> Option<u8>
    ensures { result ≡ byte_among number punctuation }
{
    match number {
        85 => Some(b'.'),
        115 => Some(b','),
        76 => Some(b'?'),
        50 => Some(b'/'),
        _ => None,
    }
}

// The byte whose sign has a number, if any.
pub(crate) fn byte_of(number: u8) -> Option<u8>
    ensures { result ≡ byte_of number }
{
    if number < FOUR_MARKS {
        let letter = table()[usize::from(number)];
        return (letter != NO_LETTER).then_some(letter);
    }
    if SIX_MARKS <= number {
        return None;
    }
    figure(number).or(other(number))
}

// The number of a sign after a mark for which the key was down so long; none where that is no mark of any sign.
#[tactic(auto, unfolding(crate::specs::Numbers::after_mark))]
pub(crate) fn after_mark(number: u8, down: usize) -> Option<u8>
    ensures { result ≡ after_mark number down }
{
    if FIVE_MARKS <= number {
        return None;
    }
    match down {
        DOT if number != 0 => Some(2 * number),
        DASH => Some(2 * number + 1),
        _ => None,
    }
}
