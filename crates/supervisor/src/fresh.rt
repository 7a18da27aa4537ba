// The fresh start.
ghost use Rattle.std.specs.Prelude.{◌≡◌};
ghost use Rattle.supervisor.specs.Fresh.{fresh_state};

use crate::message::none;
use crate::state::{Battery, Mode, Phase, State, Watch};
use frames::serial::Serials;
use modules::groups::CORE;
use modules::masks::Masks;
use modules::power::{Module, Power, TRIES};

// Ascend at the start: millivolts.
const ASCEND: u16 = 7400;

// Descend at the start.
const DESCEND: u16 = 7000;

// The state at the start of a flight.
pub fn fresh() -> State
    ensures { result ≡ fresh_state }
{
    let off = Module {
        power: Power::Off(TRIES),
        requested: false,
    };
    State {
        watch: Watch {
            mode: Mode::DeployWait(Phase::Waiting(0)),
            control: 0,
            beacon: 0,
        },
        antennas: false,
        masks: Masks {
            requested: CORE,
            on: 0,
            failed: 0,
        },
        battery: Battery {
            tension: 0,
            ascend: ASCEND,
            descend: DESCEND,
        },
        serials: Serials {
            ground: 0,
            payload: 0,
        },
        message: none(),
        ends: modules::ends::none(),
        modules: modules::stage::request([off; 8], CORE, true),
    }
}
