// The calls of `flight`, as C makes them: this crate is built as a static library, which no crate can stand on.
// A slice passes as a pointer and a length, a count through a pointer. Each call is the one of the same name in `flight`,
// with the same contract.
#![tactic(auto)]

ghost use Rattle.std.specs.Prelude.{◌≡◌};
ghost use Rattle.basics.specs.Outcome.{outcome, reply};
ghost use Rattle.morse.specs.Keying.{key_reply, key_of};
ghost use Rattle.beacon.specs.Writing.{written_reply};
ghost use Rattle.supervisor.specs.declared.form.Form.TheVariants as form;
ghost use Rattle.books.specs.Step.{with_books};
ghost use Rattle.flight.specs.Calls.{imaged, fresh_image, step_image, pass_image, step_books_image, summary_reply};
ghost use Rattle.flight.specs.Calls.{modules_on_image, beacon_image, replied, ReadReplied};
ghost use Rattle.flight.specs.Calls.{tracks, tracks_of};

use flight::calls;

// Writes the image of the fresh start.
#[unsafe(no_mangle)]
pub extern "C" fn ems_fresh(image: &mut [u8]) -> u8
    ensures { imaged result image.new ≡ fresh_image image.old }
{
    calls::ems_fresh(image)
}

// Takes one frame: the image becomes the next state's, and the room holds the report, where there is one.
#[unsafe(no_mangle)]
pub extern "C" fn ems_step(image: &mut [u8], frame: &[u8], room: &mut [u8]) -> u8
    ensures { outcome (imaged result image.new) room.new
        ≡ step_image image.old frame.now room.old }
{
    calls::ems_step(image, frame, room)
}

// Takes a whole pass, frames end to end: the image becomes the state's after the last that has a report, the room holds
// the reports end to end, and it is told how many there are. It answers why the pass stopped.
#[unsafe(no_mangle)]
pub extern "C" fn ems_pass(
    image: &mut [u8],
    frames: &[u8],
    room: &mut [u8],
    reported: &mut usize,
) -> u8
    ensures { outcome (imaged (reply result reported.new) image.new) room.new
        ≡ pass_image image.old frames.now room.old }
{
    calls::ems_pass(image, frames, room, reported)
}

// Tells how many modules are on in an image's state.
#[unsafe(no_mangle)]
pub extern "C" fn ems_modules_on(image: &[u8], count: &mut usize) -> u8
    ensures { reply result count.new ≡ modules_on_image image.now }
{
    calls::ems_modules_on(image, count)
}

// Takes one frame as `ems_step` does, and counts a done tick in the books.
#[unsafe(no_mangle)]
pub extern "C" fn ems_step_books(
    image: &mut [u8],
    frame: &[u8],
    room: &mut [u8],
    books: &mut [u64],
) -> u8
    ensures { outcome (with_books (imaged result image.new) books.new) room.new
        ≡ step_books_image image.old frame.now room.old books.old }
{
    calls::ems_step_books(image, frame, room, books)
}

// Writes each module's share on, in thousandths, by the books; where these are refused, as many zeros as there is room for.
#[unsafe(no_mangle)]
pub extern "C" fn ems_summary(books: &[u64], shares: &mut [u16]) -> u8
    ensures { outcome result shares.new ≡ summary_reply books.now shares.old }
{
    calls::ems_summary(books, shares)
}

// Writes the basic text of an image's state, and its length.
#[unsafe(no_mangle)]
pub extern "C" fn ems_beacon_basic(image: &[u8], text: &mut [u8], count: &mut usize) -> u8
    ensures { outcome (reply result count.new) text.new
        ≡ replied written_reply (beacon_image form.Basic image.now text.old) }
{
    calls::ems_beacon_basic(image, text, count)
}

// Writes the complete text of an image's state, and its length.
#[unsafe(no_mangle)]
pub extern "C" fn ems_beacon_complete(image: &[u8], text: &mut [u8], count: &mut usize) -> u8
    ensures { outcome (reply result count.new) text.new
        ≡ replied written_reply (beacon_image form.Complete image.now text.old) }
{
    calls::ems_beacon_complete(image, text, count)
}

// Writes the extended text of an image's state, and its length.
#[unsafe(no_mangle)]
pub extern "C" fn ems_beacon_extended(image: &[u8], text: &mut [u8], count: &mut usize) -> u8
    ensures { outcome (reply result count.new) text.new
        ≡ replied written_reply (beacon_image form.Extended image.now text.old) }
{
    calls::ems_beacon_extended(image, text, count)
}

// Keys a text: its units, and how many they are.
#[unsafe(no_mangle)]
pub extern "C" fn ems_key(text: &[u8], units: &mut [u8], count: &mut usize) -> u8
    ensures { outcome (reply result count.new) units.new
        ≡ replied key_reply (key_of text.now units.old) }
{
    calls::ems_key(text, units, count)
}

// Reads units back: the text, and its length.
#[unsafe(no_mangle)]
pub extern "C" fn ems_read(units: &[u8], text: &mut [u8], count: &mut usize) -> u8
    ensures { ReadReplied units.now text.old
        (outcome (reply result count.new) text.new) }
{
    calls::ems_read(units, text, count)
}

// One call of the panel tracker: the set point moves, and the step is told; refused, both stay.
#[unsafe(no_mangle)]
pub extern "C" fn ems_track(
    volts_before: u32,
    amps_before: u32,
    volts_after: u32,
    amps_after: u32,
    set_point: &mut u32,
    step: &mut i32,
) -> u8
    ensures { tracks result set_point.new step.new
        ≡ tracks_of volts_before amps_before volts_after amps_after set_point.old step.old }
{
    calls::ems_track(
        volts_before,
        amps_before,
        volts_after,
        amps_after,
        set_point,
        step,
    )
}
