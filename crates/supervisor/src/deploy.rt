// A tick in DEPLOY_WAIT.
ghost use Rattle.std.specs.Prelude.{◌≡◌, true};
ghost use Rattle.supervisor.specs.Range.{phase_in_range};
ghost use Rattle.supervisor.specs.Deploy.{phase_ticked};

use crate::range::{SETTLE_SECONDS, WAIT_SECONDS};
use crate::state::{Mode, Phase};

impl Phase {
    // The mode after a tick in this phase.
    pub(crate) fn tick(self, antennas: bool) -> Mode
        requires { phase_in_range self ≡ true }
        ensures { result ≡ phase_ticked antennas self }
    {
        match self {
            Phase::Waiting(waited) => {
                let now = waited + 1;
                if antennas | (now == WAIT_SECONDS) {
                    Mode::DeployWait(Phase::Settling(SETTLE_SECONDS))
                } else {
                    Mode::DeployWait(Phase::Waiting(now))
                }
            }
            Phase::Settling(left) => {
                let now = left - 1;
                if now == 0 {
                    Mode::Recovery
                } else {
                    Mode::DeployWait(Phase::Settling(now))
                }
            }
        }
    }
}
