// The summary of the books: each module's share on.
ghost use Rattle.std.specs.Prelude.{◌≡◌};
ghost use Rattle.books.specs.Summary.{summary_of};

use crate::answer::BookFault;
use crate::numbers::{MODULES, NUMBERS, none_above};
use crate::shares::share;

// Sums the books up: each module's share on in thousandths. Refused with 18 unless there are 24 numbers, then with 17
// where one is above the most.
#[tactic(auto, unfolding(crate::specs::Summary::summary_of))]
pub fn summary(books: &[u64]) -> Result<[u16; MODULES], BookFault>
    ensures { result ≡ summary_of books.now }
{
    let books = books.as_array::<NUMBERS>().ok_or(BookFault::NotBooks)?;
    if !none_above(books) {
        return Err(BookFault::Full);
    }
    let mut shares = [0; MODULES];
    for m in 0..MODULES {
        shares[m] = share(books[3 * m], books[3 * m + 1], books[3 * m + 2]);
    }
    Ok(shares)
}
