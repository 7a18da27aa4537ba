// What news other than a tick does: it is stored.
ghost use Rattle.std.specs.Prelude.{◌≡◌};
ghost use Rattle.supervisor.specs.State.{with_tension, with_antennas};

use crate::state::State;

impl State {
    // A battery frame stores the tension.
    pub(crate) fn battery(mut self, tension: u16) -> State
        ensures { result ≡ with_tension tension self }
    {
        self.battery.tension = tension;
        self
    }

    // An antennas frame stores the latest report.
    pub(crate) fn antennas(mut self, deployed: bool) -> State
        ensures { result ≡ with_antennas deployed self }
    {
        self.antennas = deployed;
        self
    }
}
