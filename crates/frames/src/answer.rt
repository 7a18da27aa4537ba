// What a call of `step` answers: one case for each number of the page.
ghost use Rattle.std.specs.Prelude.{◌≡◌};
ghost use Rattle.frames.specs.Answer.{answer_number, is_reported};
ghost use Rattle.frames.specs.declared.answer.Answer.TheVariants.{UnknownKind, BadField};

use crate::kind::NoKind;
use crate::sender::NoOrigin;

// The answer, by its number. No Result: four of them (0, 8, 9, 10) have a report, and 10 uses a serial up, so that no `Ok`
// would hold them all but this enum itself.
#[derive(Clone, Copy)]
pub enum Answer {
    // done
    Done = 0,
    // the state is outside its ranges
    BadState = 1,
    // fewer than 11 bytes of reply room
    ShortRoom = 2,
    // no input bytes
    NoInput = 3,
    // the kind is not one of those known
    UnknownKind = 4,
    // the input's length is not the kind's total
    BadLength = 5,
    // a field outside its range, or descend above ascend
    BadField = 6,
    // the payload asks what is not its own
    NotPermitted = 7,
    // the serial is a repeat
    Repeat = 8,
    // the serial is stale
    Stale = 9,
    // "on" for one of the mission four while not in SAFE
    NotNow = 10,
}

impl Answer {
    // The page's number.
    pub fn number(self) -> u8
        ensures { result ≡ answer_number self }
    {
        self as u8
    }

    // Whether a report is written with it: not with the refusals 1 to 7.
    pub fn is_reported(self) -> bool
        ensures { result ≡ is_reported self }
    {
        matches!(
            self,
            Answer::Done | Answer::Repeat | Answer::Stale | Answer::NotNow
        )
    }
}

// A first byte that is no kind's number.
impl From<NoKind> for Answer {
    ghost from_gives = { λ _ answer. answer ≡ UnknownKind };

    fn from(_: NoKind) -> Answer {
        Answer::UnknownKind
    }
}

// An origin out of its range.
impl From<NoOrigin> for Answer {
    ghost from_gives = { λ _ answer. answer ≡ BadField };

    fn from(_: NoOrigin) -> Answer {
        Answer::BadField
    }
}
