// A stream read piece by piece and logged: its lines are gathered in a room, and written whenever that is full or the
// piece is done. What a piece gives is piece's, and a line the log's.
#![tactic(auto)]

ghost use Rattle.std.specs.Prelude.{◌≡◌, ◌≤◌, length, IfOk, IfSome};

use crate::piece::{fill, keep};
use frame_log::entry::{Entry, Log, fresh};
use std::io;
use std::io::{Read, Write};

mod piece;

// The room for the bytes of a piece, and that for its lines: much for each read and each write.
const PIECE: usize = 65536;

// The bytes that are read stand apart from it: they are lent to each read, in one array that is filled again and again.
// Where a stream stands: the log, how many bytes are read and not yet used, and whether the stream has ended.
#[derive(Clone, Copy)]
struct Stream {
    log: Log,
    unused: usize,
    ended: bool,
}

// The stream after a read into what is left of its bytes.
fn read<R: Read>(stream: Stream, from: &mut R, bytes: &mut [u8]) -> io::Result<Stream>
    requires { stream.unused ≤ length bytes.old }
    ensures { IfOk result (λ next. next.unused ≤ length bytes.old) }
{
    let got = from.read(&mut bytes[stream.unused..])?;
    Ok(Stream {
        unused: stream.unused + got,
        ended: got == 0,
        ..stream
    })
}

// One turn: the frames at hand are entered and their lines written; where they are used up, more is read. None once the
// log is over.
fn turn<R: Read, W: Write>(
    stream: Stream,
    from: &mut R,
    to: &mut W,
    bytes: &mut [u8],
    room: &mut [u8],
) -> io::Result<Option<Stream>>
    requires { stream.unused ≤ length bytes.old }
    ensures { IfOk result (λ next. IfSome next (λ s. s.unused ≤ length bytes.old)) }
{
    let filled = fill(stream.log, &bytes[..stream.unused], stream.ended, room);
    to.write_all(&room[..filled.lines])?;
    let next = Stream {
        log: filled.log,
        unused: keep(bytes, filled.used, stream.unused),
        ..stream
    };
    match filled.entry {
        Entry::Full => Ok(Some(next)),
        Entry::More if !next.ended => Ok(Some(read(next, from, bytes)?)),
        _ => Ok(None),
    }
}

// Logs the stream that is read, until it ends or a frame is refused. A read or a write that fails is the error.
pub fn print_log<R: Read, W: Write>(from: &mut R, to: &mut W) -> io::Result<()> {
    to.write_all(b"n kind origin serial answer mode requested on failed beacon\n")?;
    let mut bytes = [0; PIECE];
    let mut room = [0; PIECE];
    let mut stream = Stream {
        log: fresh(),
        unused: 0,
        ended: false,
    };
    // a loop without an end would ask for a handle, and none is allowed
    for _ in 0..u64::MAX {
        let Some(next) = turn(stream, from, to, &mut bytes, &mut room)? else {
            break;
        };
        stream = next;
    }
    Ok(())
}
