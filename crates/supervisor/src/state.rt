// The supervisor's state.
ghost use Rattle.std.specs.Prelude.{◌≡◌};
ghost use Rattle.modules.specs.Masks.{masks_of};
ghost use Rattle.supervisor.specs.State.{mode_number, is_safe, HasMasks, with_modules, without_requests};

use frames::greeting::LONGEST;
use frames::serial::Serials;
use modules::ends::Ends;
use modules::masks::Masks;
use modules::power::Module;

// The deploy phase, had in DEPLOY_WAIT and in no other mode.
#[derive(Clone, Copy)]
pub enum Phase {
    // seconds waited for the antennas
    Waiting(u32),
    // seconds left until RECOVERY
    Settling(u16),
}

// The mode; the later in this list is the better.
#[derive(Clone, Copy)]
pub enum Mode {
    DeployWait(Phase),
    Recovery,
    Safe,
}

// The mode, and the counts of the control and the beacon stage.
#[derive(Clone, Copy)]
pub struct Watch {
    pub mode: Mode,
    pub control: u8,
    pub beacon: u16,
}

// The latest reading, 0 before the first, and the two thresholds: millivolts. An Option would be no plainer: by the rules 0 is
// judged, shown and kept in an image as any other tension.
#[derive(Clone, Copy)]
pub struct Battery {
    pub tension: u16,
    pub ascend: u16,
    pub descend: u16,
}

// What a school has the beacon say: the beacons that it is still to be sent with, and its text, none where the length is 0. No
// Option: length 0 with repeats above 0 is in range, and an image keeps it (`load_save`). The text has its sixteen bytes beside
// its length, since there is no heap, and an image has both.
#[derive(Clone, Copy)]
pub struct Message {
    pub repeats: u8,
    pub length: u8,
    pub text: [u8; LONGEST],
}

// All that the board remembers from one frame to the next.
#[derive(Clone, Copy)]
pub struct State {
    pub watch: Watch,
    // whether the latest report has the antennas deployed
    pub antennas: bool,
    // those of the modules below; here they fill bytes that would lie unused (docs/PERFORMANCE.md). Check 1 finds it so, and
    // after it `HasMasks` asks it: a type that says it would stand beside this one, which may hold any masks as it comes in
    pub masks: Masks,
    pub battery: Battery,
    pub serials: Serials,
    pub message: Message,
    pub ends: Ends,
    pub modules: [Module; 8],
}

impl Mode {
    // The mode by its number: 0 DEPLOY_WAIT, 1 RECOVERY, 2 SAFE. By a match, since DEPLOY_WAIT bears its phase.
    pub fn number(self) -> u8
        ensures { result ≡ mode_number self }
    {
        match self {
            Mode::DeployWait(_) => 0,
            Mode::Recovery => 1,
            Mode::Safe => 2,
        }
    }

    // Whether this is SAFE.
    pub(crate) fn is_safe(self) -> bool
        ensures { result ≡ is_safe self }
    {
        matches!(self, Mode::Safe)
    }
}

impl State {
    // The state with other modules, and the masks that are theirs.
    pub(crate) fn with_modules(mut self, modules: [Module; 8], masks: Masks) -> State
        requires { masks ≡ masks_of modules }
        ensures { result ≡ with_modules modules self }
    {
        self.modules = modules;
        self.masks = masks;
        self
    }

    // The state with the modules of a mask requested off, and their bits with them. Only those that are requested are
    // set: a mask that no compiler knows beforehand keeps the walk over the modules a loop (docs/PERFORMANCE.md).
    pub(crate) fn without_requests(self, mask: u8) -> State
        requires { HasMasks self }
        ensures { result ≡ without_requests mask self }
    {
        let asked = self.masks.requested & mask;
        let modules = modules::stage::request(self.modules, asked, false);
        self.with_modules(modules, self.masks.request(asked, false))
    }
}
