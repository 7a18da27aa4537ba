// What a frame that passed checks 1 to 7 gives: the next state, the answer, the beacon due.
ghost use Rattle.std.specs.Prelude.{◌≡◌};
ghost use Rattle.supervisor.specs.Acted.{due_number, silent};

use crate::form::Form;
use crate::state::State;
use frames::answer::Answer;

// The next state, the answer (0, 8, 9 or 10), and the beacon that a tick makes due.
#[derive(Clone, Copy)]
pub struct Acted {
    pub state: State,
    pub answer: Answer,
    pub due: Option<Form>,
}

impl Acted {
    // The due beacon's number in a report.
    pub(crate) fn due_number(self) -> u8
        ensures { result ≡ due_number self.due }
    {
        match self.due {
            None => 0,
            Some(form) => form as u8,
        }
    }
}

// An answer with no beacon due.
pub(crate) fn silent(answer: Answer, state: State) -> Acted
    ensures { result ≡ silent answer state }
{
    Acted {
        state,
        answer,
        due: None,
    }
}
