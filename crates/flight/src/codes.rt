// A mode with its phase as one number, and a module as another: so an image has them (the C interface). Functions and no
// `From`, since neither side is a type of this crate. A number that narrows by `as` is proved to lose nothing.
// Each in range has a number of its own; every other number says one out of range.
ghost use Rattle.std.specs.Prelude.{◌≡◌, true};
ghost use Rattle.modules.specs.Power.{power_in_range};
ghost use Rattle.flight.specs.Codes.{mode_code, mode_from, power_code, module_code, module_from};

use modules::power::{CLEAN, Module, Power};
use supervisor::state::{Mode, Phase};

// Settling is this and the seconds left; numbers up to it are the seconds waited.
const SETTLING: u32 = 86399;

// RECOVERY.
const RECOVERY: u32 = 87300;

// SAFE, the last number of a mode.
const SAFE: u32 = 87301;

// A module that is on counts by its seconds, and a try above the first is 60 of them. So this is on with all tries, and
// the last of those on; off is this and the tries left.
const ALL_TRIES: u16 = 240;

// Failed is this and the seconds left.
const FAILED: u16 = 246;

// What a module's number has more when it is requested.
const REQUESTED: u16 = 32768;

// A mode with its phase as a number.
pub(crate) fn mode_code(mode: Mode) -> u32
    ensures { result ≡ mode_code mode }
{
    match mode {
        Mode::DeployWait(Phase::Waiting(waited)) => waited,
        Mode::DeployWait(Phase::Settling(left)) => SETTLING + u32::from(left),
        Mode::Recovery => RECOVERY,
        Mode::Safe => SAFE,
    }
}

// The mode of a number; past SAFE's it is waiting, for longer than any board waits.
pub(crate) fn mode_from(code: u32) -> Mode
    ensures { result ≡ mode_from code }
{
    match code {
        ..=SETTLING => Mode::DeployWait(Phase::Waiting(code)),
        ..RECOVERY => Mode::DeployWait(Phase::Settling((code - SETTLING) as u16)),
        RECOVERY => Mode::Recovery,
        SAFE => Mode::Safe,
        _ => Mode::DeployWait(Phase::Waiting(code)),
    }
}

// A power in range as a number. That it is in range is asked: a `Power` is also what an image says that is to be refused.
fn power_code(power: Power) -> u16
    requires { power_in_range power ≡ true }
    ensures { result ≡ power_code power }
{
    match power {
        Power::On { tries, seconds } => u16::from(tries - 1) * u16::from(CLEAN)
            + u16::from(seconds),
        Power::Off(tries) => ALL_TRIES + u16::from(tries),
        Power::Failed(left) => FAILED + left,
    }
}

// A module in range as a number.
pub(crate) fn module_code(m: Module) -> u16
    requires { power_in_range m.power ≡ true }
    ensures { result ≡ module_code m }
{
    let code = power_code(m.power);
    if m.requested { REQUESTED + code } else { code }
}

// The module of a number; where its power's is past 846 it is failed, for longer than any module is.
pub(crate) fn module_from(code: u16) -> Module
    ensures { result ≡ module_from code }
{
    let clean = u16::from(CLEAN);
    let power = match code % REQUESTED {
        on @ ..=ALL_TRIES => Power::On {
            tries: (on / clean + 1) as u8,
            seconds: (on % clean) as u8,
        },
        off @ ..FAILED => Power::Off((off - ALL_TRIES) as u8),
        failed => Power::Failed(failed - FAILED),
    };
    Module {
        power,
        requested: REQUESTED <= code,
    }
}
