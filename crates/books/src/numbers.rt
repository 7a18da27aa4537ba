// The numbers of the books, by place, as C lends them: module m's seconds on, off and failed are numbers 3m, 3m + 1 and
// 3m + 2.
ghost use Rattle.std.specs.Prelude.{◌≡◌, true};
ghost use Rattle.basics.specs.Outcome.{outcome};
ghost use Rattle.books.specs.Books.{shown_as, counted, none_above, kept_of};

use crate::answer::BookFault;
use modules::masks::Masks;
use modules::stage::has;

// How many numbers the books have.
pub const NUMBERS: usize = 24;

// The most seconds that a number holds.
pub const MOST: u64 = 1000000000000000;

// How many modules there are.
pub const MODULES: usize = 8;

// Whether no number is above the most.
pub(crate) fn none_above(books: &[u64; NUMBERS]) -> bool
    ensures { result ≡ none_above books.now }
{
    books.iter().all(|seconds| *seconds <= MOST)
}

// Which of module m's three numbers a second goes to, by the masks: on is 0, off 1, failed 2.
fn second(masks: Masks, m: usize) -> usize
    ensures { result ≡ shown_as masks m }
{
    if has(masks.on, m) {
        0
    } else if has(masks.failed, m) {
        2
    } else {
        1
    }
}

// Books and masks stand apart here: the books are the caller's, lent for the call, the masks the state's.

// Whether a tick that leaves these masks takes no number above the most: those that it adds to are below it.
fn takes_tick(books: &[u64; NUMBERS], masks: Masks) -> bool
    requires { none_above books.now ≡ true }
    ensures { result ≡ none_above (counted (shown_as masks) books.now) }
{
    for m in 0..MODULES {
        if MOST <= books[3 * m + second(masks, m)] {
            return false;
        }
    }
    true
}

// Counts a tick that leaves these masks: one number of each module grows by 1.
fn count(books: &mut [u64; NUMBERS], masks: Masks)
    requires { none_above (counted (shown_as masks) books.old) ≡ true }
    ensures { books.new ≡ counted (shown_as masks) books.old }
{
    for m in 0..MODULES {
        books[3 * m + second(masks, m)] += 1;
    }
}

// Keeps the books after a call that leaves these masks: a done tick is counted. Where a number is above the most, or the
// tick would take it above, they are full, and the numbers stay.
#[tactic(auto, unfolding(crate::specs::Books::kept_of))]
pub(crate) fn keep(books: &mut [u64; NUMBERS], tick: bool, masks: Masks) -> Result<(), BookFault>
    ensures { outcome result books.new ≡ kept_of tick (shown_as masks) books.old }
{
    if !none_above(books) {
        return Err(BookFault::Full);
    }
    if tick {
        if !takes_tick(books, masks) {
            return Err(BookFault::Full);
        }
        count(books, masks);
    }
    Ok(())
}
