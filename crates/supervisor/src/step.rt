// One frame, with a state and a room for its report.
ghost use Rattle.std.specs.Prelude.{◌≡◌};
ghost use Rattle.basics.specs.Outcome.{outcome};
ghost use Rattle.supervisor.specs.Step.{step_of};

use crate::act::act;
use crate::report::write;
use crate::state::State;
use frames::answer::Answer;
use frames::greeting::text_of;
use frames::kind::REPORT_BYTES;
use frames::reading::read;

// The answer, and the next state. No Result: a state is handed back with every answer, refusals too, as the page has it.
#[derive(Clone, Copy)]
pub struct Stepped {
    pub answer: Answer,
    pub state: State,
}

// Takes one frame. At answers 0, 8, 9 and 10 a report fills the first 11 bytes of the room; at any other answer the state is
// the same and the room untouched. State, input and room stand apart: a struct of the three would hold what a caller lends.
#[tactic(auto, unfolding(crate::specs::Step::step_of))]
pub fn step(state: State, input: &[u8], room: &mut [u8]) -> Stepped
    ensures { outcome result room.new ≡ step_of state input.now room.old }
{
    if !state.in_range() {
        return Stepped {
            answer: Answer::BadState,
            state,
        };
    }
    if room.len() < REPORT_BYTES {
        return Stepped {
            answer: Answer::ShortRoom,
            state,
        };
    }
    let frame = match read(input) {
        Ok(frame) => frame,
        Err(answer) => return Stepped { answer, state },
    };
    let acted = act(state, frame, text_of(input));
    write(room, frame, acted);
    Stepped {
        answer: acted.answer,
        state: acted.state,
    }
}
