// A piece of a stream, without reading or writing: its frames entered, and what is not used yet kept.
ghost use Rattle.std.specs.Prelude.{◌≡◌, ◌≤◌, length};
ghost use Rattle.basics.specs.Outcome.{outcome};
ghost use Rattle.stream.specs.Piece.{fill_of, keep_of};

use frame_log::entry::{Entry, Log, enter};

// Where a piece leaves the log: the entry that ended it, the bytes used, and the bytes of the lines in the room.
#[derive(Clone, Copy)]
pub(crate) struct Filled {
    pub(crate) entry: Entry,
    pub(crate) log: Log,
    pub(crate) used: usize,
    pub(crate) lines: usize,
}

// Enters frame after frame, as long as there is a whole one and room for its line. What is counted is what it gives: the bytes
// that are used, and those of the lines.
pub(crate) fn fill(mut log: Log, bytes: &[u8], ended: bool, room: &mut [u8]) -> Filled
    ensures { outcome result room.new ≡ fill_of log bytes.now ended room.old }
{
    let mut used = 0;
    let mut lines = 0;
    loop {
        let entered = enter(log, &bytes[used..], ended, &mut room[lines..]);
        log = entered.log;
        match entered.entry {
            Entry::Line { frame, line } => {
                used += frame;
                lines += line;
            }
            Entry::Last(line) => {
                return Filled {
                    entry: entered.entry,
                    log,
                    used,
                    lines: lines + line,
                };
            }
            Entry::More | Entry::Full => {
                return Filled {
                    entry: entered.entry,
                    log,
                    used,
                    lines,
                };
            }
        }
    }
}

// Moves the bytes from a place to another to the front, and gives how many they are.
#[tactic(auto, using(crate::proofs::KeepLaws::moved_law), unfolding(crate::specs::Piece::keep_of))]
pub(crate) fn keep(bytes: &mut [u8], from: usize, to: usize) -> usize
    requires { (from ≤ to) × (to ≤ length bytes.old) }
    ensures { outcome result bytes.new ≡ keep_of bytes.old from to }
{
    bytes.copy_within(from..to, 0);
    to - from
}
