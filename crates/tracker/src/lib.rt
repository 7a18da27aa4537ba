// The panel tracker: it climbs a panel's power by moving a set point, a step a call.
// One call keeps or turns the step by the power before and after the last move, and moves the set point by it.
#![tactic(auto)]

ghost use Rattle.std.specs.Prelude.{◌≤◌, ◌≡◌, IsTrue, MatchOption, false, neg_ℤ};
ghost use Rattle.std.proofs.Common.{rules};
ghost use Rattle.tracker.specs.Tracker.{most_millivolts, track_number, is_reading, is_step, power};
ghost use Rattle.tracker.specs.Tracker.{headed, done, moved, track_of};

use basics::Refusal;

// A reading, the set point or the step is out of range.
#[derive(Clone, Copy)]
pub struct OutOfRange;

// A panel's voltage and current.
#[derive(Clone, Copy)]
pub struct Reading {
    pub millivolts: u32,
    pub milliamperes: u32,
}

// What a call hands back: the set point in millivolts, and the step.
#[derive(Clone, Copy)]
pub struct Tracked {
    pub point: u32,
    pub step: i32,
}

// The highest voltage of a reading, and the highest set point.
pub const MOST_MILLIVOLTS: u32 = 20000;

// The highest current of a reading.
pub const MOST_MILLIAMPERES: u32 = 5000;

// The longest step, either way.
pub const LONGEST_STEP: u32 = 500;

impl Refusal for OutOfRange {
    ghost number_of = { track_number };

    fn number(self) -> u8 {
        16
    }

    ghost is_told = { Prim.search rules };
}

impl Reading {
    // Whether voltage and current are in their ranges.
    fn in_range(self) -> bool
        ensures { result ≡ is_reading self }
    {
        (self.millivolts <= MOST_MILLIVOLTS) & (self.milliamperes <= MOST_MILLIAMPERES)
    }

    // The power, in microwatts.
    fn power(self) -> u64
        ensures { result ≡ power self }
    {
        u64::from(self.millivolts) * u64::from(self.milliamperes)
    }
}

// A step that is in its range.
#[derive(Clone, Copy)]
struct Step {
    millivolts: i32,
    ghost in_range: { IsTrue (is_step millivolts) },
}

impl Step {
    // The step of so many millivolts, if it is in its range.
    fn of(millivolts: i32) -> Option<Step>
        ensures { MatchOption result (is_step millivolts ≡ false) (λ step. step.millivolts ≡ millivolts) }
    {
        let size = millivolts.unsigned_abs();
        if (1..=LONGEST_STEP).contains(&size) {
            Some(Step { millivolts })
        } else {
            None
        }
    }

    // The step the other way.
    fn turned(self) -> Step
        ensures { result.millivolts ≡ neg_ℤ self.millivolts }
    {
        Step {
            millivolts: -self.millivolts,
        }
    }

    // The step as the powers before and after the last move say: kept, or turned.
    #[tactic(auto, unfolding(crate::specs::Tracker::headed))]
    fn heading(self, before: Reading, after: Reading) -> Step
        ensures { result.millivolts ≡ headed before after self.millivolts }
    {
        if before.power() <= after.power() {
            self
        } else {
            self.turned()
        }
    }

    // A move past an end stops there, and the step handed back is turned.
    fn stop_at(self, end: u32) -> Tracked
        ensures { result ≡ done end (neg_ℤ self.millivolts) }
    {
        Tracked {
            point: end,
            step: self.turned().millivolts,
        }
    }

    // The set point moved by the step, within the ends.
    fn shift(self, point: u32) -> Tracked
        requires { point ≤ most_millivolts }
        ensures { result ≡ moved point self.millivolts }
    {
        let to = (point as i32) + self.millivolts;
        if (MOST_MILLIVOLTS as i32) < to {
            self.stop_at(MOST_MILLIVOLTS)
        } else if to < 0 {
            self.stop_at(0)
        } else {
            Tracked {
                point: to as u32,
                step: self.millivolts,
            }
        }
    }
}

// One call, with the readings before and after the last move. What is out of range is refused.
pub fn track(
    before: Reading,
    after: Reading,
    set_point: u32,
    step: i32,
) -> Result<Tracked, OutOfRange>
    ensures { result ≡ track_of before after set_point step }
{
    if !(before.in_range() & after.in_range() & (set_point <= MOST_MILLIVOLTS)) {
        return Err(OutOfRange);
    }
    match Step::of(step) {
        Some(step) => Ok(step.heading(before, after).shift(set_point)),
        None => Err(OutOfRange),
    }
}
