// What the bytes of a frame say, or why they are refused: checks 3 to 7.
ghost use Rattle.std.specs.Prelude.{◌≡◌, ◌+◌, ◌<◌, ◌≤◌, length};
ghost use Rattle.frames.specs.Kind.{greeting_bytes};
ghost use Rattle.frames.specs.Reading.{word_at, is_reading, are_thresholds, are_minutes, is_foreign};
ghost use Rattle.frames.specs.Reading.{battery_fields, antennas_fields, order_fields, timed_fields};
ghost use Rattle.frames.specs.Reading.{sender_read, of_ground, thresholds_fields, greeting_fields, read_frame};

use crate::answer::Answer;
use crate::command::Command;
use crate::frame::Frame;
use crate::greeting::{is_greeting, text_of};
use crate::kind::Kind;
use crate::sender::{Origin, Sender};
use modules::groups::is_mission;

// The lowest reading of the battery, and the lowest threshold: millivolts.
const LOWEST_READING: u16 = 5000;

// And the highest.
const HIGHEST_READING: u16 = 9000;

// Modules are 0 to 7.
const LAST_MODULE: u8 = 7;

// The most minutes of a timed order.
const MOST_MINUTES: u16 = 1440;

// Whether a number of millivolts is a battery's.
pub fn is_reading(millivolts: u16) -> bool
    ensures { result ≡ is_reading millivolts }
{
    (LOWEST_READING..=HIGHEST_READING).contains(&millivolts)
}

// Whether two numbers of millivolts are a pair of thresholds.
pub fn are_thresholds(ascend: u16, descend: u16) -> bool
    ensures { result ≡ are_thresholds ascend descend }
{
    is_reading(ascend) & is_reading(descend) & (descend <= ascend)
}

// Whether a number of minutes is a timed order's.
fn are_minutes(minutes: u16) -> bool
    ensures { result ≡ are_minutes minutes }
{
    (1..=MOST_MINUTES).contains(&minutes)
}

// Whether an origin may not order a module: the payload orders its own alone.
fn is_foreign(origin: Origin, which: u8) -> bool
    ensures { result ≡ is_foreign origin which }
{
    (origin == Origin::Payload) & (which != modules::groups::PAYLOAD)
}

// The two-byte number at a place, the high byte first.
fn word_at(bytes: &[u8], place: usize) -> u16
    requires { place + 1 < length bytes.now }
    ensures { result ≡ word_at place bytes.now }
{
    u16::from_be_bytes([bytes[place], bytes[place + 1]])
}

// Each reader asks for a length of its own: an array type would have it asked a second time, after the table of totals.

// A battery's reading.
#[tactic(auto, unfolding(crate::specs::Reading::battery_fields))]
fn battery(bytes: &[u8]) -> Result<Frame, Answer>
    requires { length bytes.now ≡ 3 }
    ensures { result ≡ battery_fields bytes.now }
{
    let millivolts = word_at(bytes, 1);
    if !is_reading(millivolts) {
        return Err(Answer::BadField);
    }
    Ok(Frame::Battery(millivolts))
}

// Whether the antennas are deployed.
#[tactic(auto, unfolding(crate::specs::Reading::antennas_fields))]
fn antennas(bytes: &[u8]) -> Result<Frame, Answer>
    requires { length bytes.now ≡ 2 }
    ensures { result ≡ antennas_fields bytes.now }
{
    match bytes[1] {
        0 => Ok(Frame::Antennas(false)),
        1 => Ok(Frame::Antennas(true)),
        _ => Err(Answer::BadField),
    }
}

// The sender of a command.
#[tactic(auto, unfolding(crate::specs::Reading::sender_read))]
fn sender(bytes: &[u8]) -> Result<Sender, Answer>
    requires { 4 ≤ length bytes.now }
    ensures { result ≡ sender_read bytes.now }
{
    Ok(Sender {
        origin: Origin::try_from(bytes[1])?,
        serial: word_at(bytes, 2),
    })
}

// An order.
#[tactic(auto, unfolding(crate::specs::Reading::order_fields, crate::specs::Reading::sender_read))]
fn order(bytes: &[u8]) -> Result<Frame, Answer>
    requires { length bytes.now ≡ 6 }
    ensures { result ≡ order_fields bytes.now }
{
    let sender = sender(bytes)?;
    let which = bytes[4];
    let wanted = bytes[5];
    if (LAST_MODULE < which) | (1 < wanted) {
        return Err(Answer::BadField);
    }
    if is_foreign(sender.origin, which) {
        return Err(Answer::NotPermitted);
    }
    Ok(Frame::Command {
        sender,
        command: Command::Order {
            which,
            on: wanted == 1,
        },
    })
}

// A timed order, for one of the mission four. With `order` it shares one test and one value: a function of both is no plainer.
#[tactic(auto, unfolding(crate::specs::Reading::timed_fields, crate::specs::Reading::sender_read))]
fn timed(bytes: &[u8]) -> Result<Frame, Answer>
    requires { length bytes.now ≡ 7 }
    ensures { result ≡ timed_fields bytes.now }
{
    let sender = sender(bytes)?;
    let which = bytes[4];
    let minutes = word_at(bytes, 5);
    if !(is_mission(which) & are_minutes(minutes)) {
        return Err(Answer::BadField);
    }
    if is_foreign(sender.origin, which) {
        return Err(Answer::NotPermitted);
    }
    Ok(Frame::Command {
        sender,
        command: Command::Timed { which, minutes },
    })
}

// A command that is ground's alone.
#[tactic(auto, unfolding(crate::specs::Reading::of_ground))]
fn of_ground(sender: Sender, command: Command) -> Result<Frame, Answer>
    ensures { result ≡ of_ground command sender }
{
    match sender.origin {
        Origin::Ground => Ok(Frame::Command { sender, command }),
        Origin::Payload => Err(Answer::NotPermitted),
    }
}

// Thresholds, which the payload may not set.
#[tactic(auto, unfolding(crate::specs::Reading::thresholds_fields, crate::specs::Reading::sender_read))]
fn thresholds(bytes: &[u8]) -> Result<Frame, Answer>
    requires { length bytes.now ≡ 8 }
    ensures { result ≡ thresholds_fields bytes.now }
{
    let sender = sender(bytes)?;
    let ascend = word_at(bytes, 4);
    let descend = word_at(bytes, 6);
    if !are_thresholds(ascend, descend) {
        return Err(Answer::BadField);
    }
    of_ground(sender, Command::Thresholds { ascend, descend })
}

// A greeting, which the payload may not send.
#[tactic(auto, unfolding(crate::specs::Reading::greeting_fields, crate::specs::Reading::sender_read))]
fn greeting(bytes: &[u8]) -> Result<Frame, Answer>
    requires { length bytes.now ≡ greeting_bytes }
    ensures { result ≡ greeting_fields bytes.now }
{
    let sender = sender(bytes)?;
    let repeats = bytes[4];
    let length = bytes[5];
    if !is_greeting(length, text_of(bytes)) {
        return Err(Answer::BadField);
    }
    of_ground(sender, Command::Greeting { repeats, length })
}

// Checks 3 to 7, in the page's order.
#[tactic(auto, unfolding(crate::specs::Reading::read_frame, crate::specs::Kind::total_of))]
pub fn read(bytes: &[u8]) -> Result<Frame, Answer>
    ensures { result ≡ read_frame bytes.now }
{
    let first = bytes.first().ok_or(Answer::NoInput)?;
    let kind = Kind::try_from(*first)?;
    if bytes.len() != kind.total() {
        return Err(Answer::BadLength);
    }
    match kind {
        Kind::Tick => Ok(Frame::Tick(bytes[1])),
        Kind::Battery => battery(bytes),
        Kind::Antennas => antennas(bytes),
        Kind::Order => order(bytes),
        Kind::Thresholds => thresholds(bytes),
        Kind::Timed => timed(bytes),
        Kind::Greeting => greeting(bytes),
    }
}
