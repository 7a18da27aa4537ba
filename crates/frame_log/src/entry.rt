// The log's next entry: the frame at the front of a stream, worked, and its line.
ghost use Rattle.std.specs.Prelude.{◌≡◌};
ghost use Rattle.basics.specs.Outcome.{outcome};
ghost use Rattle.frame_log.specs.Entry.{fresh_log, entered, worked, enter_of};

use crate::line::{LONGEST, line, refused};
use frames::cut::{Uncut, cut};
use frames::kind::REPORT_BYTES;
use supervisor::state::State;
use supervisor::step::step;

// Where a log stands: the state, and the next frame's n.
#[derive(Clone, Copy)]
pub struct Log {
    pub state: State,
    pub n: u64,
}

// What the front of a stream gives.
#[derive(Clone, Copy)]
pub enum Entry {
    // a line of so many bytes for a frame of so many; the log goes on
    Line { frame: usize, line: usize },
    // a line of so many bytes that says that the frame is refused; the log ends
    Last(usize),
    // no whole frame yet, or nothing left
    More,
    // fewer than LONGEST bytes of room
    Full,
}

// An entry, and where the log stands after it.
#[derive(Clone, Copy)]
pub struct Entered {
    pub entry: Entry,
    pub log: Log,
}

impl Log {
    // An entry that leaves the log where it is.
    fn stays(self, entry: Entry) -> Entered
        ensures { result ≡ entered entry self }
    {
        Entered { entry, log: self }
    }
}

// A log that has no line yet.
#[tactic(auto, unfolding(crate::specs::Entry::fresh_log))]
pub fn fresh() -> Log
    ensures { result ≡ fresh_log }
{
    Log {
        state: supervisor::fresh::fresh(),
        n: 1,
    }
}

// Works a frame and writes its line. In a room shorter than LONGEST, which `enter` never hands on, it has 0 bytes.
#[tactic(auto, unfolding(crate::specs::Entry::worked))]
fn work(log: Log, frame: &[u8], room: &mut [u8]) -> Entered
    ensures { outcome result room.new ≡ worked log frame.now room.old }
{
    let mut report = [0; REPORT_BYTES];
    let stepped = step(log.state, frame, &mut report);
    if !stepped.answer.is_reported() {
        let line = refused(log.n, stepped.answer, room);
        return log.stays(Entry::Last(line.unwrap_or(0)));
    }
    let line = line(log.n, &report, room);
    Entered {
        entry: Entry::Line {
            frame: frame.len(),
            line: line.unwrap_or(0),
        },
        log: Log {
            state: stepped.state,
            n: log.n.wrapping_add(1),
        },
    }
}

// Enters the frame at the front of the bytes, which are the last of the stream if it has ended. A frame that is
// cut off there, like one of unknown kind, is handed over as it is, to be refused.
#[tactic(auto, using(crate::proofs::EntryLaws::frame_whole), unfolding(crate::specs::Entry::enter_of))]
pub fn enter(log: Log, bytes: &[u8], ended: bool, room: &mut [u8]) -> Entered
    ensures { outcome result room.new ≡ enter_of log bytes.now ended room.old }
{
    if room.len() < LONGEST {
        return log.stays(Entry::Full);
    }
    match cut(bytes) {
        Ok(total) => work(log, &bytes[..total], room),
        Err(Uncut::Unknown) => work(log, bytes, room),
        Err(Uncut::Short) if ended => work(log, bytes, room),
        Err(Uncut::Short | Uncut::Empty) => log.stays(Entry::More),
    }
}
