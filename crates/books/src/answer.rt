// What a call with books answers: what the call without books answers, or why the books forbid it.
ghost use Rattle.std.specs.Prelude.{◌≡◌};
ghost use Rattle.std.proofs.Common.{rules};
ghost use Rattle.books.specs.Answer.{book_fault_number, book_number, is_book_reported};

use basics::Refusal;
use frames::answer::Answer;

// Why the books forbid a call.
#[derive(Clone, Copy, PartialEq, Eq)]
pub enum BookFault {
    // a number is above 10^15, or this tick would take one above
    Full = 17,
    // not 24 numbers
    NotBooks = 18,
}

impl Refusal for BookFault {
    ghost number_of = { book_fault_number };

    ghost is_told = { Prim.search rules };

    fn number(self) -> u8 {
        self as u8
    }
}

// The page's number of an answer.
pub fn number(answer: Result<Answer, BookFault>) -> u8
    ensures { result ≡ book_number answer }
{
    match answer {
        Ok(answer) => answer.number(),
        Err(fault) => fault.number(),
    }
}

// Whether a report is written with it.
pub fn is_reported(answer: Result<Answer, BookFault>) -> bool
    ensures { result ≡ is_book_reported answer }
{
    match answer {
        Ok(answer) => answer.is_reported(),
        Err(_) => false,
    }
}
