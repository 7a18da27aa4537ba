// What C and Rust call, by way of `flight_c`: no function of a library is exported. An image is the caller's: 71 bytes,
// the whole state.
// A slice passes as a pointer and a length, a count through a pointer; each call answers the page's number.
ghost use Rattle.std.specs.Prelude.{◌≡◌};
ghost use Rattle.basics.specs.Outcome.{outcome, reply};
ghost use Rattle.morse.specs.Keying.{key_reply, key_of};
ghost use Rattle.beacon.specs.Writing.{written_reply};
ghost use Rattle.supervisor.specs.declared.form.Form.TheVariants as form;
ghost use Rattle.books.specs.Step.{with_books};
ghost use Rattle.flight.specs.Calls.{imaged, fresh_image, step_image, pass_image, step_books_image, summary_reply};
ghost use Rattle.flight.specs.Calls.{modules_on_image, beacon_image, told, replied, ReadReplied};
ghost use Rattle.flight.specs.Calls.{tracks, tracks_of};

use crate::loading::load;
use crate::saving::{IMAGE_BYTES, save};
use basics::Refusal;
use beacon::writing::WriteFault;
use books::answer::BookFault;
use books::numbers::{MODULES, NUMBERS};
use books::shares::put;
use books::step::step_books;
use books::summary::summary;
use frames::answer::Answer;
use morse::answers::{DONE, NO_ROOM};
use supervisor::form::Form;
use supervisor::fresh::fresh;
use tracker::Reading;

// Writes the image of the fresh start.
#[unsafe(no_mangle)]
pub extern "C" fn ems_fresh(image: &mut [u8]) -> u8
    ensures { imaged result image.new ≡ fresh_image image.old }
{
    if image.len() != IMAGE_BYTES {
        return Answer::BadState.number();
    }
    save(fresh(), image);
    Answer::Done.number()
}

// Takes one frame: the image becomes the next state's, and the room holds the report, where there is one.
#[unsafe(no_mangle)]
pub extern "C" fn ems_step(image: &mut [u8], frame: &[u8], room: &mut [u8]) -> u8
    ensures { outcome (imaged result image.new) room.new
        ≡ step_image image.old frame.now room.old }
{
    let Some(state) = load(image) else {
        return Answer::BadState.number();
    };
    let after = supervisor::step::step(state, frame, room);
    let reported = after.answer.is_reported();
    if reported {
        save(after.state, image);
    }
    after.answer.number()
}

// Takes a whole pass, frames end to end: the image becomes the state's after the last that has a report, the room holds
// the reports end to end, and it is told how many there are. It answers why the pass stopped.
#[unsafe(no_mangle)]
pub extern "C" fn ems_pass(
    image: &mut [u8],
    frames: &[u8],
    room: &mut [u8],
    reported: &mut usize,
) -> u8
    ensures { outcome (imaged (reply result reported.new) image.new) room.new
        ≡ pass_image image.old frames.now room.old }
{
    let Some(state) = load(image) else {
        *reported = 0;
        return Answer::BadState.number();
    };
    let passed = pass::pass(state, frames, room);
    *reported = passed.reported;
    if 0 < passed.reported {
        save(passed.state, image);
    }
    passed.answer.number()
}

// Tells how many modules are on in an image's state.
#[unsafe(no_mangle)]
pub extern "C" fn ems_modules_on(image: &[u8], count: &mut usize) -> u8
    ensures { reply result count.new ≡ modules_on_image image.now }
{
    *count = 0;
    let Some(state) = load(image) else {
        return Answer::BadState.number();
    };
    match counting::modules_on(state) {
        Ok(on) => {
            *count = on as usize;
            DONE
        }
        Err(refusal) => refusal.number(),
    }
}

// Takes one frame as `ems_step` does, and counts a done tick in the books.
#[unsafe(no_mangle)]
pub extern "C" fn ems_step_books(
    image: &mut [u8],
    frame: &[u8],
    room: &mut [u8],
    books: &mut [u64],
) -> u8
    ensures { outcome (with_books (imaged result image.new) books.new) room.new
        ≡ step_books_image image.old frame.now room.old books.old }
{
    if books.len() != NUMBERS {
        return BookFault::NotBooks.number();
    }
    let Some(state) = load(image) else {
        return Answer::BadState.number();
    };
    let booked = step_books(state, frame, room, books);
    if books::answer::is_reported(booked.answer) {
        save(booked.state, image);
    }
    books::answer::number(booked.answer)
}

// Writes each module's share on, in thousandths, by the books; where these are refused, as many zeros as there is room for.
#[unsafe(no_mangle)]
#[tactic(auto, unfolding(crate::specs::Calls::summary_reply))]
pub extern "C" fn ems_summary(books: &[u64], shares: &mut [u16]) -> u8
    ensures { outcome result shares.new ≡ summary_reply books.now shares.old }
{
    let (all, number) = match summary(books) {
        Ok(_) if shares.len() < MODULES => return NO_ROOM,
        Ok(all) => (all, DONE),
        Err(fault) => ([0; MODULES], fault.number()),
    };
    put(all, shares);
    number
}

// The beacon's text of an image's state.
fn write_beacon(image: &[u8], form: Form, text: &mut [u8]) -> Result<usize, WriteFault>
    ensures { outcome result text.new ≡ beacon_image form image.now text.old }
{
    let Some(state) = load(image) else {
        return Err(WriteFault::BadState);
    };
    beacon::writing::write(state, form, text)
}

// Writes the basic text of an image's state, and its length.
#[unsafe(no_mangle)]
pub extern "C" fn ems_beacon_basic(image: &[u8], text: &mut [u8], count: &mut usize) -> u8
    ensures { outcome (reply result count.new) text.new
        ≡ replied written_reply (beacon_image form.Basic image.now text.old) }
{
    tell(write_beacon(image, Form::Basic, text), count)
}

// Writes the complete text of an image's state, and its length.
#[unsafe(no_mangle)]
pub extern "C" fn ems_beacon_complete(image: &[u8], text: &mut [u8], count: &mut usize) -> u8
    ensures { outcome (reply result count.new) text.new
        ≡ replied written_reply (beacon_image form.Complete image.now text.old) }
{
    tell(write_beacon(image, Form::Complete, text), count)
}

// Writes the extended text of an image's state, and its length.
#[unsafe(no_mangle)]
pub extern "C" fn ems_beacon_extended(image: &[u8], text: &mut [u8], count: &mut usize) -> u8
    ensures { outcome (reply result count.new) text.new
        ≡ replied written_reply (beacon_image form.Extended image.now text.old) }
{
    tell(write_beacon(image, Form::Extended, text), count)
}

// Tells the page's number of what a call gave, 0 where it is done, and how many it has written: none at a refusal.
fn tell<E: Refusal>(given: Result<usize, E>, count: &mut usize) -> u8
    ensures { reply result count.new ≡ told E.number_of given }
{
    let (number, written) = match given {
        Ok(written) => (DONE, written),
        Err(refusal) => (refusal.number(), 0),
    };
    *count = written;
    number
}

// Keys a text: its units, and how many they are.
#[unsafe(no_mangle)]
pub extern "C" fn ems_key(text: &[u8], units: &mut [u8], count: &mut usize) -> u8
    ensures { outcome (reply result count.new) units.new
        ≡ replied key_reply (key_of text.now units.old) }
{
    tell(morse::key(text, units), count)
}

// Reads units back: the text, and its length.
#[unsafe(no_mangle)]
pub extern "C" fn ems_read(units: &[u8], text: &mut [u8], count: &mut usize) -> u8
    ensures { ReadReplied units.now text.old
        (outcome (reply result count.new) text.new) }
{
    tell(hearing::read(units, text), count)
}

// One call of the panel tracker: the set point moves, and the step is told; refused, both stay.
#[unsafe(no_mangle)]
pub extern "C" fn ems_track(
    volts_before: u32,
    amps_before: u32,
    volts_after: u32,
    amps_after: u32,
    set_point: &mut u32,
    step: &mut i32,
) -> u8
    ensures { tracks result set_point.new step.new
        ≡ tracks_of volts_before amps_before volts_after amps_after set_point.old step.old }
{
    let before = Reading {
        millivolts: volts_before,
        milliamperes: amps_before,
    };
    let after = Reading {
        millivolts: volts_after,
        milliamperes: amps_after,
    };
    match tracker::track(before, after, *set_point, *step) {
        Ok(tracked) => {
            *set_point = tracked.point;
            *step = tracked.step;
            DONE
        }
        Err(refusal) => refusal.number(),
    }
}
