// The three masks of the modules, kept beside them. A request sets its bits, the stage makes those of the modules on and
// failed as it goes (`stage`), and check 1 holds all three against the modules.
ghost use Rattle.std.specs.Prelude.{◌≡◌, ◌&&◌, ◌+◌, ◌*◌};
ghost use Rattle.modules.specs.Power.{is_on, is_failed};
ghost use Rattle.modules.specs.Stage.{modules_in_range};
ghost use Rattle.modules.specs.Masks.{below, packed_masks, are_masks_of, one_bit, requests_set};

use crate::power::{Module, Power};

// Bit i of each is module i.
#[derive(Clone, Copy)]
pub struct Masks {
    pub requested: u8,
    pub on: u8,
    pub failed: u8,
}

// The masks stand side by side in one number, for speed (docs/PERFORMANCE.md): requested lowest, on from here up.
pub(crate) const ON: u32 = 256;

// Failed from here up.
pub(crate) const FAILED: u32 = 65536;

// A module's bits among those on and those failed.
pub(crate) fn power_bits(power: Power) -> u32
    ensures { result ≡ below (is_on power) 0 * 256 + below (is_failed power) 0 * 65536 }
{
    match power {
        Power::On { .. } => ON,
        Power::Off(_) => 0,
        Power::Failed(_) => FAILED,
    }
}

// Whether every module's tries or seconds are in their range, and the masks are those of the modules: in one walk.
pub fn in_range(modules: [Module; 8], masks: Masks) -> bool
    ensures { result ≡ (modules_in_range modules && are_masks_of modules masks) }
{
    let mut all: u32 = 0;
    for m in modules.iter().rev() {
        if !m.power.in_range() {
            return false;
        }
        all = 2 * all + power_bits(m.power) + u32::from(m.requested);
    }
    all == masks.packed()
}

// The bit of one module; there is no module from 8 on.
pub fn one_bit(which: u8) -> u8
    ensures { result ≡ one_bit which }
{
    if which < 8 { 1 << which } else { 0 }
}

impl Masks {
    // The masks side by side.
    fn packed(self) -> u32
        ensures { result ≡ packed_masks self }
    {
        u32::from(self.requested) + u32::from(self.on) * ON + u32::from(self.failed) * FAILED
    }

    // The masks with the requests of a mask's modules set to on or off, all at once.
    pub fn request(mut self, mask: u8, on: bool) -> Masks
        ensures { result ≡ requests_set mask on self }
    {
        if on {
            self.requested |= mask;
        } else {
            self.requested -= self.requested & mask;
        }
        self
    }
}
