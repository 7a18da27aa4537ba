// The beacon stage of a tick: which beacon is due.
ghost use Rattle.std.specs.Prelude.{◌≡◌, ◌<◌};
ghost use Rattle.supervisor.specs.Range.{basic_ticks};
ghost use Rattle.supervisor.specs.Due.{due_at, count_after, repeats_after, beacon_stage};

use crate::acted::Acted;
use crate::form::Form;
use crate::range::{BASIC_TICKS, COMPLETE_TICKS};
use crate::state::{Mode, State};
use frames::answer::Answer;

impl Mode {
    // The beacon that is due in this mode at this count; whether a message is to be sent decides between two.
    fn due(self, greets: bool, count: u16) -> Option<Form>
        ensures { result ≡ due_at self greets count }
    {
        match self {
            Mode::Recovery if count == BASIC_TICKS => Some(Form::Basic),
            Mode::Safe if count % COMPLETE_TICKS == 0 => Some(if greets {
                Form::Extended
            } else {
                Form::Complete
            }),
            _ => None,
        }
    }
}

// The beacon count, back at 0 where a beacon is due.
fn count_after(due: Option<Form>, count: u16) -> u16
    ensures { result ≡ count_after due count }
{
    if due.is_some() { 0 } else { count }
}

// The message's repeats, one fewer where it is sent.
fn repeats_after(due: Option<Form>, repeats: u8) -> u8
    ensures { result ≡ repeats_after due repeats }
{
    match due {
        Some(Form::Extended) => repeats.saturating_sub(1),
        _ => repeats,
    }
}

impl State {
    // Beacon.
    #[tactic(auto, unfolding(crate::specs::Due::beacon_stage))]
    pub(crate) fn beacon_stage(mut self) -> Acted
        requires { self.watch.beacon < basic_ticks }
        ensures { result ≡ beacon_stage self }
    {
        let count = self.watch.beacon + 1;
        let due = self.watch.mode.due(self.message.is_to_be_sent(), count);
        self.watch.beacon = count_after(due, count);
        self.message.repeats = repeats_after(due, self.message.repeats);
        Acted {
            state: self,
            answer: Answer::Done,
            due,
        }
    }
}
