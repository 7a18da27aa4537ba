// The state of an image: what its fields say, each number by itself.
// Numbers that no state in range has make a state out of range, which `step` and the beacon refuse.
ghost use Rattle.std.specs.Prelude.{◌≡◌, length};
ghost use Rattle.flight.specs.Saving.{image_bytes};
ghost use Rattle.flight.specs.Loading.{message_in, ends_in, modules_in, decoded, fields_say};

use crate::codes::{mode_from, module_from};
use crate::fields::{pair_at, quad_at};
use crate::saving::{
    ENDS_PLACE, Image, MASKS_PLACE, MESSAGE_PLACE, MODULE_COUNT, MODULES_PLACE, TEXT_PLACE, VERSION,
};
use frames::serial::Serials;
use modules::ends::Ends;
use modules::masks::Masks;
use modules::power::Module;
use supervisor::state::{Battery, Message, State, Watch};

// The message of an image.
#[tactic(auto, unfolding(crate::specs::Loading::message_in))]
fn message_in(image: &Image) -> Message
    ensures { result ≡ message_in image.now }
{
    Message {
        repeats: image[MESSAGE_PLACE],
        length: image[MESSAGE_PLACE + 1],
        text: image[TEXT_PLACE..ENDS_PLACE].try_into().unwrap(),
    }
}

// The ends of an image.
#[tactic(auto, unfolding(crate::specs::Loading::ends_in))]
fn ends_in(image: &Image) -> Ends
    ensures { result ≡ ends_in image.now }
{
    Ends {
        adcs: quad_at(image, ENDS_PLACE),
        payload: quad_at(image, ENDS_PLACE + 4),
        sband1: quad_at(image, ENDS_PLACE + 8),
        sband2: quad_at(image, ENDS_PLACE + 12),
    }
}

// The eight modules of an image.
fn modules_in(image: &Image) -> [Module; MODULE_COUNT]
    ensures { result ≡ modules_in image.now }
{
    std::array::from_fn(|i| module_from(pair_at(image, MODULES_PLACE + 2 * i)))
}

// The state that the fields of an image say, in range or not. Each call that loads has `load` in it, and this once for all.
#[tactic(auto, unfolding(crate::specs::Loading::decoded, crate::specs::Loading::masks_in))]
#[inline(never)]
fn decode(image: &Image) -> State
    ensures { result ≡ decoded image.now }
{
    State {
        watch: Watch {
            mode: mode_from(u32::from_le_bytes([image[1], image[2], image[3], 0])),
            control: image[4],
            beacon: pair_at(image, 5),
        },
        antennas: image[7] == 1,
        masks: Masks {
            requested: image[MASKS_PLACE],
            on: image[MASKS_PLACE + 1],
            failed: image[MASKS_PLACE + 2],
        },
        battery: Battery {
            tension: pair_at(image, 8),
            ascend: pair_at(image, 10),
            descend: pair_at(image, 12),
        },
        serials: Serials {
            ground: pair_at(image, 14),
            payload: pair_at(image, 16),
        },
        message: message_in(image),
        ends: ends_in(image),
        modules: modules_in(image),
    }
}

// The state that the fields of an image say, in range or not. Bytes that are not of this layout have none: it has their
// number, the version, and antennas that are 0 or 1.
#[tactic(auto, unfolding(crate::specs::Loading::fields_say, crate::specs::Loading::has_layout))]
pub(crate) fn load(image: &[u8]) -> Option<State>
    ensures { result ≡ fields_say image.now }
{
    let image = image.as_array()?;
    if (image[0] == VERSION) & (image[7] <= 1) {
        Some(decode(image))
    } else {
        None
    }
}
