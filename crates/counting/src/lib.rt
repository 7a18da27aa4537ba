// How many modules are on.
#![tactic(auto)]

ghost use Rattle.std.specs.Prelude.{◌≡◌};
ghost use Rattle.counting.specs.Counting.{modules_on_of};

use frames::answer::Answer;
use supervisor::state::State;

// How many modules are on: the ones of the on mask. Refused with 1 where the state is out of its ranges.
#[tactic(auto, unfolding(crate::specs::Counting::modules_on_of))]
pub fn modules_on(state: State) -> Result<u32, Answer>
    ensures { result ≡ modules_on_of state }
{
    if !state.in_range() {
        return Err(Answer::BadState);
    }
    Ok(state.masks.on.count_ones())
}
