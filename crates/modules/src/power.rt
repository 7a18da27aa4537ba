// One module: its power, its request, and what a second does to it.
ghost use Rattle.std.specs.Prelude.{◌≡◌};
ghost use Rattle.modules.specs.Power.{one_try_fewer, started, stayed_on, switched};
ghost use Rattle.modules.specs.Power.{power_in_range, with_power, with_request};

// What powers a module.
#[derive(Clone, Copy)]
pub enum Power {
    // powered, with tries left, and the seconds since its start that count towards having them all again
    On { tries: u8, seconds: u8 },
    // not powered, with tries left
    Off(u8),
    // given up, with seconds left until the next attempt
    Failed(u16),
}

// A module: its power, and whether it is requested on.
#[derive(Clone, Copy)]
pub struct Module {
    pub power: Power,
    pub requested: bool,
}

// The most tries that a module has.
pub const TRIES: u8 = 5;

// The seconds in a row, on and without a short, after which a module has them all again.
pub const CLEAN: u8 = 60;

// The seconds that a failed module waits.
const RETRY: u16 = 600;

// A short takes a try: off with one fewer, failed at none.
fn one_try_fewer(tries: u8) -> Power
    ensures { result ≡ one_try_fewer tries }
{
    if tries <= 1 {
        Power::Failed(RETRY)
    } else {
        Power::Off(tries - 1)
    }
}

// On, with the tries it has; the second that starts it is not counted.
fn started(tries: u8) -> Power
    ensures { result ≡ started tries }
{
    Power::On { tries, seconds: 0 }
}

// On for another second without a short.
fn stayed_on(tries: u8, seconds: u8) -> Power
    ensures { result ≡ stayed_on tries seconds }
{
    if tries == TRIES {
        Power::On { tries, seconds }
    } else if seconds < CLEAN - 1 {
        Power::On {
            tries,
            seconds: seconds + 1,
        }
    } else {
        started(TRIES)
    }
}

impl Power {
    // The power after one second in which the module was wanted or not, and short or not.
    #[tactic(auto, unfolding(crate::specs::Power::switched))]
    pub fn second(self, wanted: bool, short: bool) -> Power
        ensures { result ≡ switched wanted short self }
    {
        match self {
            Power::On { tries, .. } if short => one_try_fewer(tries),
            Power::On { tries, seconds } if wanted => stayed_on(tries, seconds),
            Power::On { tries, .. } => Power::Off(tries),
            Power::Off(_) if !wanted => self,
            Power::Off(tries) if short => one_try_fewer(tries),
            Power::Off(tries) => started(tries),
            Power::Failed(left) if 0 < left => Power::Failed(left - 1),
            Power::Failed(_) if !wanted => self,
            Power::Failed(_) if short => Power::Failed(RETRY),
            Power::Failed(_) => started(1),
        }
    }

    // Whether the tries, or the seconds, are in their range.
    pub fn in_range(self) -> bool
        ensures { result ≡ power_in_range self }
    {
        match self {
            Power::On {
                tries: TRIES,
                seconds,
            } => seconds == 0,
            Power::On { tries, seconds } => (1..=TRIES).contains(&tries) & (seconds < CLEAN),
            Power::Off(tries) => (1..=TRIES).contains(&tries),
            Power::Failed(left) => left <= RETRY,
        }
    }
}

impl Module {
    // The module with another power.
    pub fn with_power(self, power: Power) -> Module
        ensures { result ≡ with_power power self }
    {
        Module { power, ..self }
    }

    // The module with another request.
    pub fn with_request(self, requested: bool) -> Module
        ensures { result ≡ with_request requested self }
    {
        Module { requested, ..self }
    }
}
