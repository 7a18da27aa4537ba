// The signs of ITU-R M.1677-1, in the form that keying walks through.
// What they are is `specs/Signs.antt`: two tables, each for a run of bytes, meet it by one rule, a computed test, and a figure
// is worked out.
ghost use Rattle.std.specs.Prelude.{◌≡◌, ◌<◌};
ghost use Rattle.morse.specs.Signs.{sign_of};
ghost use Rattle.morse.specs.SignTable.{marks_of, HasSigns, first_sign, last_sign, first_stop, last_stop};
ghost use Rattle.morse.specs.SignTable.{figure_count, figure_marks};

// A sign: its dashes as bits, the first mark lowest, and how many marks it has; two bytes, in constants that fly.
#[derive(Clone, Copy)]
pub(crate) struct Sign {
    pub(crate) marks: u8,
    pub(crate) len: u8,
}

// A sign of no marks: that of a byte which has none, and so of the space. It is no `None`, which keying would have to take
// for no marks again.
const NO_SIGN: Sign = Sign { marks: 0, len: 0 };

// How many bytes there are from `?` to `Z`.
const LETTER_RUN: usize = 28;

// How many there are from `,` to `/`.
const STOP_RUN: usize = 4;

// How many figures there are.
const FIGURES: u8 = 10;

// How many marks a figure has.
const FIVE: u8 = 5;

// All five of them dashes.
const DASHES: u8 = 31;

// From `?` to `Z`: the letters, and the question mark before them.
const SIGNS: [Sign; LETTER_RUN] = [
    Sign { marks: 12, len: 6 }, // ?
    NO_SIGN, // @
    Sign { marks: 2, len: 2 }, // A
    Sign { marks: 1, len: 4 }, // B
    Sign { marks: 5, len: 4 }, // C
    Sign { marks: 1, len: 3 }, // D
    Sign { marks: 0, len: 1 }, // E
    Sign { marks: 4, len: 4 }, // F
    Sign { marks: 3, len: 3 }, // G
    Sign { marks: 0, len: 4 }, // H
    Sign { marks: 0, len: 2 }, // I
    Sign { marks: 14, len: 4 }, // J
    Sign { marks: 5, len: 3 }, // K
    Sign { marks: 2, len: 4 }, // L
    Sign { marks: 3, len: 2 }, // M
    Sign { marks: 1, len: 2 }, // N
    Sign { marks: 7, len: 3 }, // O
    Sign { marks: 6, len: 4 }, // P
    Sign { marks: 11, len: 4 }, // Q
    Sign { marks: 2, len: 3 }, // R
    Sign { marks: 0, len: 3 }, // S
    Sign { marks: 1, len: 1 }, // T
    Sign { marks: 4, len: 3 }, // U
    Sign { marks: 8, len: 4 }, // V
    Sign { marks: 6, len: 3 }, // W
    Sign { marks: 9, len: 4 }, // X
    Sign { marks: 13, len: 4 }, // Y
    Sign { marks: 3, len: 4 }, // Z
];

// From `,` to `/`: the other punctuation.
const PUNCTUATION: [Sign; STOP_RUN] = [
    Sign { marks: 51, len: 6 }, // ,
    NO_SIGN, // -
    Sign { marks: 42, len: 6 }, // .
    Sign { marks: 9, len: 5 }, // /
];

// The first table: each entry is the sign of its byte, and as long as its timing says.
fn letters() -> [Sign; LETTER_RUN]
    ensures { HasSigns first_sign last_sign result }
{
    SIGNS
}

// The second: likewise. Each is the one place where its table's test is computed, and the tables have their own lengths.
fn stops() -> [Sign; STOP_RUN]
    ensures { HasSigns first_stop last_stop result }
{
    PUNCTUATION
}

// The sign of a figure, worked out. 0 to 4 are that many dots, then dashes to five; 5 to 9 are none to four dashes, then
// dots to five.
fn figure(digit: u8) -> Sign
    requires { digit < figure_count }
    ensures { marks_of result ≡ figure_marks digit }
{
    let marks = if digit < FIVE {
        DASHES << digit
    } else {
        DASHES >> (FIGURES - digit)
    };
    Sign { marks, len: FIVE }
}

// The sign of a byte; one of no marks where the byte has none.
pub(crate) fn sign_of(c: u8) -> Sign
    ensures { marks_of result ≡ sign_of c }
{
    // A letter is found by the first test: one `match` would test for it last, as LLVM orders ranges.
    match c {
        b'?'..=b'Z' => letters()[usize::from(c - b'?')],
        _ => match c {
            b'0'..=b'9' => figure(c - b'0'),
            b','..=b'/' => stops()[usize::from(c - b',')],
            _ => NO_SIGN,
        },
    }
}
