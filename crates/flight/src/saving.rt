// The state as an image of 71 bytes: saved.
ghost use Rattle.std.specs.Prelude.{◌≡◌, true, length};
ghost use Rattle.std.proofs.lemmas.List.Edits.{sets};
ghost use Rattle.modules.specs.Stage.{modules_in_range};
ghost use Rattle.supervisor.specs.Range.{in_range};
ghost use Rattle.flight.specs.Saving.{image_bytes, message_place, ends_place, masks_place, modules_place};
ghost use Rattle.flight.specs.Saving.{head_bytes, message_bytes, ends_bytes, masks_bytes, modules_bytes, saved};

use crate::codes::{mode_code, module_code};
use crate::fields::put;
use modules::ends::Ends;
use modules::masks::Masks;
use modules::power::Module;
use supervisor::state::{Message, State};

// The version of the layout: an image of other software has another.
pub(crate) const VERSION: u8 = 6;

// The bytes of an image.
pub(crate) const IMAGE_BYTES: usize = 71;

// The message stands from here on: repeats, length, text.
pub(crate) const MESSAGE_PLACE: usize = 18;

// Its text, sixteen bytes.
pub(crate) const TEXT_PLACE: usize = 20;

// The ends stand from here on, four bytes each.
pub(crate) const ENDS_PLACE: usize = 36;

// The masks stand from here on: requested, on, failed.
pub(crate) const MASKS_PLACE: usize = 52;

// The modules stand from here on, two bytes each.
pub(crate) const MODULES_PLACE: usize = 55;

// How many modules there are.
pub(crate) const MODULE_COUNT: usize = 8;

// The bytes of a state.
pub(crate) type Image = [u8; IMAGE_BYTES];

// All but the message, the ends, the masks and the modules. That the state is in range is asked, as in `supervisor`'s `act`.
#[tactic(auto, using(crate::proofs::SavingLaws::mode_code_small), unfolding(crate::specs::Saving::head_bytes))]
fn head(state: State) -> [u8; MESSAGE_PLACE]
    requires { in_range state ≡ true }
    ensures { result ≡ head_bytes state }
{
    let mode = mode_code(state.watch.mode).to_le_bytes();
    let beacon = state.watch.beacon.to_le_bytes();
    let tension = state.battery.tension.to_le_bytes();
    let ascend = state.battery.ascend.to_le_bytes();
    let descend = state.battery.descend.to_le_bytes();
    let ground = state.serials.ground.to_le_bytes();
    let payload = state.serials.payload.to_le_bytes();
    [
        VERSION,
        mode[0],
        mode[1],
        mode[2],
        state.watch.control,
        beacon[0],
        beacon[1],
        u8::from(state.antennas),
        tension[0],
        tension[1],
        ascend[0],
        ascend[1],
        descend[0],
        descend[1],
        ground[0],
        ground[1],
        payload[0],
        payload[1],
    ]
}

// Stores the eight modules. The loop goes by the image's length, which the compiler does not know: it stays one.
fn put_modules(modules: [Module; MODULE_COUNT], image: &mut [u8])
    requires { (length image.old ≡ image_bytes) × (modules_in_range modules ≡ true) }
    ensures { image.new ≡ sets image.old modules_place (modules_bytes modules) }
{
    for i in 0..(image.len() - MODULES_PLACE) / 2 {
        put(
            image,
            MODULES_PLACE + 2 * i,
            module_code(modules[i]).to_le_bytes(),
        );
    }
}

// The image of a state in range. It is lent as C lends it, a slice, and asked to be long enough: with `&mut Image` the compiler
// knows the length too, and writes `put_modules` out eight times.
pub(crate) fn save(state: State, image: &mut [u8])
    requires { (length image.old ≡ image_bytes) × (in_range state ≡ true) }
    ensures { image.new ≡ saved state }
{
    put(image, 0, head(state));
    put(
        image,
        MESSAGE_PLACE,
        [state.message.repeats, state.message.length],
    );
    put(image, TEXT_PLACE, state.message.text);
    put(image, ENDS_PLACE, state.ends.adcs.to_le_bytes());
    put(image, ENDS_PLACE + 4, state.ends.payload.to_le_bytes());
    put(image, ENDS_PLACE + 8, state.ends.sband1.to_le_bytes());
    put(image, ENDS_PLACE + 12, state.ends.sband2.to_le_bytes());
    put(
        image,
        MASKS_PLACE,
        [state.masks.requested, state.masks.on, state.masks.failed],
    );
    put_modules(state.modules, image);
}
