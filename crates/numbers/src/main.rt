// The numbers of document 01's "Numbers on either side" that are run and not proved; the longest keying, which fills
// MOST_UNITS; and two craft on which COMM2, once ordered off, stays off over a crossing upward that one of them makes.
#![tactic(auto)]

use frames::answer::Answer;
use frames::kind::{Kind, REPORT_BYTES};
use frames::sender::Origin;
use modules::stage::has;
use morse::MOST_UNITS;
use std::io;
use supervisor::fresh::fresh;
use supervisor::state::{Mode, State};
use supervisor::step::step;

// The ticks after which the search for RECOVERY is given up.
const MOST_TICKS: u64 = 100000;

// The ticks to RECOVERY with the antennas deployed: one that sees them, then 900 seconds of settling.
const TICKS_TO_RECOVERY: u32 = 901;

// The ticks from one judgement of the mode to the next.
const JUDGE_TICKS: u32 = 30;

// The threshold that is crossed upwards: millivolts.
const ASCEND: u16 = 7400;

// The number of the module COMM2.
const COMM2: u8 = 2;

// A reading of the battery, as a frame.
fn battery(millivolts: u16) -> [u8; 3] {
    let [high, low] = millivolts.to_be_bytes();
    [Kind::Battery.number(), high, low]
}

// The state after a frame, worked a number of times.
fn after(mut state: State, frame: &[u8], times: u32) -> State {
    let mut report = [0; REPORT_BYTES];
    for _ in 0..times {
        state = step(state, frame, &mut report).state;
    }
    state
}

// The state after a number of ticks that see no short.
fn after_ticks(state: State, times: u32) -> State {
    after(state, &[Kind::Tick.number(), 0], times)
}

// The state after the antennas are reported deployed.
fn after_deployed(state: State) -> State {
    after(state, &[Kind::Antennas.number(), 1], 1)
}

// The state after a reading of the battery.
fn after_reading(state: State, millivolts: u16) -> State {
    after(state, &battery(millivolts), 1)
}

// The state after an order of the ground's for COMM2, on or off, and a tick.
fn after_comm2(state: State, serial: u8, on: bool) -> State {
    let frame = [
        Kind::Order.number(),
        Origin::Ground.number(),
        0,
        serial,
        COMM2,
        u8::from(on),
    ];
    after_ticks(after(state, &frame, 1), 1)
}

// The ticks that it takes from a state to RECOVERY, if `MOST_TICKS` are enough.
fn ticks_to_recovery(mut state: State) -> Option<u64> {
    for ticks in 1..=MOST_TICKS {
        state = after_ticks(state, 1);
        if matches!(state.watch.mode, Mode::Recovery) {
            return Some(ticks);
        }
    }
    None
}

// Writes the tick after which the mode is RECOVERY.
fn say_recovery(rt: &impl Print, state: State) -> io::Result<()> {
    match ticks_to_recovery(state) {
        Some(ticks) => println!(rt; "RECOVERY after tick {ticks}"),
        None => println!(rt; "no RECOVERY after {MOST_TICKS} ticks"),
    }
}

// Writes the answer to a reading of the battery.
fn say_battery(rt: &impl Print, millivolts: u16) -> io::Result<()> {
    let mut report = [0; REPORT_BYTES];
    match step(fresh(), &battery(millivolts), &mut report).answer {
        Answer::Done => println!(rt; "battery {millivolts}: done"),
        answer => println!(rt; "battery {millivolts}: refusal {}", answer.number()),
    }
}

// Writes how many units a text has.
fn say_units(rt: &impl Print, text: &str) -> io::Result<()> {
    let mut units = [0; MOST_UNITS];
    match morse::key(text.as_bytes(), &mut units) {
        Ok(count) => println!(rt; "{text}: {count} units"),
        Err(_) => println!(rt; "{text}: refused"),
    }
}

// Writes whether COMM2 is on.
fn say_comm2(rt: &impl Print, state: State) -> io::Result<()> {
    if has(state.masks.on, usize::from(COMM2)) {
        print!(rt; "on")
    } else {
        print!(rt; "off")
    }
}

// Writes it of both craft.
fn say_both(rt: &impl Print, weaker: State, stronger: State) -> io::Result<()> {
    print!(rt; ": weaker ")?;
    say_comm2(rt, weaker)?;
    print!(rt; ", stronger ")?;
    say_comm2(rt, stronger)?;
    println!(rt)
}

// Two craft, each by its name, with the same frames but for one reading, at ascend on the weaker and above it on the stronger.
fn say_two_craft(rt: &impl Print) -> io::Result<()> {
    let settled = after_ticks(after_deployed(fresh()), TICKS_TO_RECOVERY);
    let mut weaker = after_ticks(after_reading(settled, ASCEND), JUDGE_TICKS);
    let mut stronger = after_ticks(after_reading(settled, ASCEND + 1), JUDGE_TICKS);
    print!(rt; "COMM2 at 7400 mV and 7401 mV")?;
    say_both(rt, weaker, stronger)?;
    weaker = after_comm2(weaker, 1, false);
    stronger = after_comm2(stronger, 1, false);
    print!(rt; "COMM2 ordered off")?;
    say_both(rt, weaker, stronger)?;
    weaker = after_ticks(after_reading(weaker, ASCEND + 1), JUDGE_TICKS - 1);
    stronger = after_ticks(after_reading(stronger, ASCEND + 1), JUDGE_TICKS - 1);
    print!(rt; "COMM2 after the weaker's own upward crossing")?;
    say_both(rt, weaker, stronger)?;
    weaker = after_comm2(weaker, 2, true);
    stronger = after_comm2(stronger, 2, true);
    print!(rt; "COMM2 ordered on")?;
    say_both(rt, weaker, stronger)
}

// Writes each of them on a line.
fn main(rt: HostRuntime) -> io::Result<()> {
    print!(rt; "deployed reported before the first tick: ")?;
    say_recovery(&rt, after_deployed(fresh()))?;
    print!(rt; "deployed never reported: ")?;
    say_recovery(&rt, fresh())?;
    say_battery(&rt, 4999)?;
    say_battery(&rt, 5000)?;
    say_battery(&rt, 9000)?;
    say_battery(&rt, 9001)?;
    say_units(&rt, "EMS R 7000")?;
    say_units(
        &rt,
        "0000000000000000000000000000000000000000000000000000000000000000",
    )?;
    say_two_craft(&rt)
}
