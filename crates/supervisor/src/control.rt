// The control stage of a tick: the mode is judged by the battery.
ghost use Rattle.std.specs.Prelude.{◌≡◌, ◌<◌, Some};
ghost use Rattle.supervisor.specs.State.{HasMasks};
ghost use Rattle.supervisor.specs.Range.{judge_ticks};
ghost use Rattle.supervisor.specs.Control.{crossing_of, crossed, controlled};
ghost use Rattle.supervisor.specs.declared.control.Crossing.TheVariants.{Upward, Downward};

use crate::range::JUDGE_TICKS;
use crate::state::{Battery, Mode, State};
use modules::groups::MISSION;

// How a judged mode crosses, if it does.
#[derive(Clone, Copy)]
pub enum Crossing {
    // from RECOVERY to SAFE
    Upward,
    // from SAFE to RECOVERY
    Downward,
}

impl Mode {
    // How this mode crosses, judged by the battery. Equality crosses nothing.
    fn crossing(self, battery: Battery) -> Option<Crossing>
        ensures { result ≡ crossing_of self battery }
    {
        match self {
            Mode::Recovery if battery.ascend < battery.tension => Some(Crossing::Upward),
            Mode::Safe if battery.tension < battery.descend => Some(Crossing::Downward),
            _ => None,
        }
    }
}

impl State {
    // The state after a crossing upward.
    fn risen(mut self) -> State
        ensures { result ≡ crossed (Some Upward) self }
    {
        self.watch.mode = Mode::Safe;
        self
    }

    // The state after a crossing downward.
    fn fallen(mut self) -> State
        requires { HasMasks self }
        ensures { result ≡ crossed (Some Downward) self }
    {
        self.watch.mode = Mode::Recovery;
        self.ends = modules::ends::none();
        self.without_requests(MISSION)
    }

    // Control.
    #[tactic(auto, unfolding(crate::specs::Control::controlled))]
    pub(crate) fn control(mut self) -> State
        requires { (self.watch.control < judge_ticks) × HasMasks self }
        ensures { result ≡ controlled self }
    {
        let count = self.watch.control + 1;
        if count != JUDGE_TICKS {
            self.watch.control = count;
            return self;
        }
        self.watch.control = 0;
        match self.watch.mode.crossing(self.battery) {
            None => self,
            Some(Crossing::Upward) => self.risen(),
            Some(Crossing::Downward) => self.fallen(),
        }
    }
}
