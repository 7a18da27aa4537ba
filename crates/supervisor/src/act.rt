// What a frame does that passed checks 1 to 7.
ghost use Rattle.std.specs.Prelude.{◌≡◌, true};
ghost use Rattle.supervisor.specs.Range.{in_range};
ghost use Rattle.supervisor.specs.Act.{act_of};

use crate::acted::{Acted, silent};
use crate::state::State;
use frames::answer::Answer;
use frames::frame::Frame;
use frames::greeting::LONGEST;

// A frame that passed checks 1 to 7, worked, with the text beside it. That the state is in range is asked and no type's: one
// out of range is a `State` too, which `step` refuses with 1.
#[tactic(auto, using(crate::proofs::RangeLaws::masks_true), unfolding(crate::specs::Act::act_of))]
pub(crate) fn act(state: State, frame: Frame, text: [u8; LONGEST]) -> Acted
    requires { in_range state ≡ true }
    ensures { result ≡ act_of frame text state }
{
    match frame {
        Frame::Tick(shorts) => state.tick(shorts),
        Frame::Battery(tension) => silent(Answer::Done, state.battery(tension)),
        Frame::Antennas(deployed) => silent(Answer::Done, state.antennas(deployed)),
        Frame::Command { sender, command } => state.command(sender, command, text),
    }
}
