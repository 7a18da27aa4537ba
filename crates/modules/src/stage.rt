// All eight modules: the module stage of a tick, and requests set by a mask or a number.
ghost use Rattle.std.specs.Prelude.{◌≡◌};
ghost use Rattle.basics.specs.Choice.{bit};
ghost use Rattle.modules.specs.Stage.{switched_by, requested_by, requested_one};
ghost use Rattle.modules.specs.Masks.{staged};

use crate::masks::{FAILED, ON, power_bits};
use crate::power::Module;

// The modules after the stage, with the masks of those on and those failed. It leaves the requests as they are.
#[derive(Clone, Copy)]
pub struct Staged {
    pub modules: [Module; 8],
    pub on: u8,
    pub failed: u8,
}

// A mark above the eight bits of a mask. Halving down to it takes eight turns, which a compiler does not see: the loops
// below stay loops, and the modules an array (docs/PERFORMANCE.md). By `for i in 0..8`, proved too, a pass takes half as
// much again and the code two fifths more: that misses the bar of speed.
const MARK: u32 = 256;

// The highest bit of a mask. A bit that is put there, and halved with those put in before it, comes down to its place.
const TOP: u32 = 128;

// Whether module i is in a mask: its bit i. No mask has a module from 8 on.
pub fn has(mask: u8, i: usize) -> bool
    ensures { result ≡ bit i mask }
{
    if i < 8 { (mask >> i) % 2 == 1 } else { false }
}

// The modules after one second, given the mask of those wanted and the mask of shorts. Both are halved as it goes, so that
// the lowest bit of each is module i's; and each module's bits among those on and failed are put in on the way.
pub fn stage(mut modules: [Module; 8], wanted: u8, shorts: u8) -> Staged
    ensures { result ≡ staged (switched_by wanted shorts modules) }
{
    let mut rest = MARK + u32::from(shorts);
    let mut want = wanted;
    let mut all: u32 = 0;
    let mut i: usize = 0;
    while rest != 1 {
        let after = modules[i].power.second(want % 2 == 1, rest % 2 == 1);
        modules[i] = modules[i].with_power(after);
        all = all / 2 + TOP * power_bits(after);
        rest /= 2;
        want /= 2;
        i += 1;
    }
    Staged {
        modules,
        on: (all / ON % 256) as u8,
        failed: (all / FAILED % 256) as u8,
    }
}

// The modules with the request of each module of the mask set to on or off.
pub fn request(mut modules: [Module; 8], mask: u8, on: bool) -> [Module; 8]
    ensures { result ≡ requested_by mask on modules }
{
    let mut rest = MARK + u32::from(mask);
    let mut i: usize = 0;
    while rest != 1 {
        if has(mask, i) {
            modules[i] = modules[i].with_request(on);
        }
        rest /= 2;
        i += 1;
    }
    modules
}

// The modules with the request of one of them set; there is no module from 8 on.
#[tactic(auto, using(crate::proofs::StageLaws::request_stored))]
pub fn request_one(mut modules: [Module; 8], which: u8, on: bool) -> [Module; 8]
    ensures { result ≡ requested_one which on modules }
{
    if which < 8 {
        modules[usize::from(which)] = modules[usize::from(which)].with_request(on);
    }
    modules
}
