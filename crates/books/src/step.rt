// One frame, with a state, a room for its report, and books for the seconds.
ghost use Rattle.std.specs.Prelude.{◌≡◌};
ghost use Rattle.basics.specs.Outcome.{outcome};
ghost use Rattle.books.specs.Step.{with_books, booked, is_early, step_books_of};

use crate::answer::BookFault;
use crate::numbers::{NUMBERS, keep};
use frames::answer::Answer;
use frames::kind::{Kind, REPORT_BYTES};
use supervisor::state::State;
use supervisor::step::{Stepped, step};

// The answer, and the next state, which is handed back with every answer, as `step` does.
#[derive(Clone, Copy)]
pub struct Booked {
    pub answer: Result<Answer, BookFault>,
    pub state: State,
}

// Whether an answer goes before the books' 17: it is one of 1 to 6, in the page's own words; six names would say it longer.
fn is_early(answer: Answer) -> bool
    ensures { result ≡ is_early answer }
{
    (1..=6).contains(&answer.number())
}

// Takes one frame as `step` does, and counts a done tick in the books.
fn keep_step(
    state: State,
    input: &[u8],
    room: &mut [u8],
    books: &mut [u64],
) -> Result<Stepped, BookFault>
    ensures { outcome (with_books (booked state result) books.new) room.new
        ≡ step_books_of state input.now room.old books.old }
{
    let Some(books) = books.as_mut_array::<NUMBERS>() else {
        return Err(BookFault::NotBooks);
    };
    if room.len() < REPORT_BYTES {
        // 1 or 2, which go before 17
        return Ok(step(state, input, room));
    }
    // Whether a tick can be counted is known after it alone: until then its report stands in bytes of our own.
    let mut report = [0; REPORT_BYTES];
    let after = step(state, input, &mut report);
    if is_early(after.answer) {
        return Ok(after);
    }
    // The bytes are zeros where no report was written, so the second is a tick's kind at a done tick alone.
    keep(books, report[1] == Kind::Tick as u8, after.state.masks)?;
    if after.answer.is_reported() {
        basics::copy(&report, room);
    }
    Ok(after)
}

// Takes one frame as `step` does, and counts a done tick in the books. Refused with 18 unless 24 numbers are lent, then
// as `step` refuses with 1 to 6, then with 17: state, room and books are the same then.
pub fn step_books(state: State, input: &[u8], room: &mut [u8], books: &mut [u64]) -> Booked
    ensures { outcome (with_books result books.new) room.new
        ≡ step_books_of state input.now room.old books.old }
{
    match keep_step(state, input, room, books) {
        Ok(stepped) => Booked {
            answer: Ok(stepped.answer),
            state: stepped.state,
        },
        Err(fault) => Booked {
            answer: Err(fault),
            state,
        },
    }
}
