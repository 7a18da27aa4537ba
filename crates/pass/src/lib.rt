// A whole pass in one call: frames end to end, each worked as a single call would, and their reports end to end.
#![tactic(auto)]

ghost use Rattle.std.specs.Prelude.{◌≡◌};
ghost use Rattle.basics.specs.Outcome.{outcome};
ghost use Rattle.pass.specs.Pass.{work_of, pass_of};

use frames::answer::Answer;
use frames::cut::{cut, front_bytes};
use frames::kind::REPORT_BYTES;
use supervisor::state::State;
use supervisor::step::step;

// Where a pass leaves the board: the state, how many frames got a report, and why it stopped, 0 if no bytes are left. No
// Result: a pass that stops at a refusal has moved the state all the same.
#[derive(Clone, Copy)]
pub struct Passed {
    pub state: State,
    pub reported: usize,
    pub answer: Answer,
}

// One frame of a pass: its answer, how many bytes it has, and the state after it.
#[derive(Clone, Copy)]
struct Worked {
    answer: Answer,
    bytes: usize,
    state: State,
}

// Works the frame at the front of what is left of the input, with what is left of the room. One that is cut off, like
// one of unknown kind, is handed over as it is, to be refused.
fn work(state: State, rest: &[u8], room: &mut [u8]) -> Worked
    ensures { outcome result room.new ≡ work_of state rest.now room.old }
{
    let bytes = front_bytes(cut(rest), rest.len());
    let stepped = step(state, &rest[..bytes], room);
    Worked {
        answer: stepped.answer,
        bytes,
        state: stepped.state,
    }
}

// Takes frames end to end, and stops before the first that gets no report: it is refused, or no room is left for one.
// What was done stands; the bytes of the room past the last report stay.
#[tactic(auto, unfolding(crate::specs::Pass::pass_of))]
pub fn pass(mut state: State, input: &[u8], room: &mut [u8]) -> Passed
    ensures { outcome result room.new ≡ pass_of state input.now room.old }
{
    if !state.in_range() {
        return Passed {
            state,
            reported: 0,
            answer: Answer::BadState,
        };
    }
    let mut rest = input;
    let mut reported = 0;
    // The room stands whole: where a loop hands on its rest, an invariant has no name for the reports that are written.
    while !rest.is_empty() {
        let worked = work(state, rest, &mut room[reported * REPORT_BYTES..]);
        state = worked.state;
        if !worked.answer.is_reported() {
            return Passed {
                state,
                reported,
                answer: worked.answer,
            };
        }
        rest = &rest[worked.bytes..];
        reported += 1;
    }
    Passed {
        state,
        reported,
        answer: Answer::Done,
    }
}
