// Each byte of the alphabet with its sign, as the library keys it, and the byte that reading that keying gives. What is no
// mark, no sign or not read is a `!`, which is not of the alphabet.
#![tactic(auto)]

use morse::texts::LONGEST;
use std::io;

// Room for the units of any sign: they are 19 at most.
const SIGN_ROOM: usize = 32;

// Bytes to standard output.
fn say(rt: &impl Print, text: &[u8]) -> io::Result<()> {
    rt.write_all(text)
}

// A mark, by the units for which the key is down.
fn say_mark(rt: &impl Print, down: usize) -> io::Result<()> {
    match down {
        0 => Ok(()),
        1 => say(rt, b"."),
        3 => say(rt, b"-"),
        _ => say(rt, b"!"),
    }
}

// The marks that units have.
fn say_marks(rt: &impl Print, units: &[u8]) -> io::Result<()> {
    let mut down = 0;
    for unit in units {
        if *unit == 1 {
            down += 1;
        } else {
            say_mark(rt, down)?;
            down = 0;
        }
    }
    say_mark(rt, down)
}

// What reading units gives.
fn say_heard(rt: &impl Print, units: &[u8]) -> io::Result<()> {
    let mut text = [0; LONGEST];
    match hearing::read(units, &mut text) {
        Ok(n) if n <= LONGEST => say(rt, &text[..n]),
        Ok(_) => Ok(()),
        Err(_) => say(rt, b"!"),
    }
}

// The marks of a keying, and what reading it gives.
fn say_keyed(rt: &impl Print, units: &[u8]) -> io::Result<()> {
    say_marks(rt, units)?;
    say(rt, b" ")?;
    say_heard(rt, units)?;
    say(rt, b"\n")
}

// A byte, its sign, and what reading that gives.
fn say_sign(rt: &impl Print, byte: u8) -> io::Result<()> {
    let text = [byte];
    let mut units = [0; SIGN_ROOM];
    say(rt, &text)?;
    say(rt, b" ")?;
    match morse::key(&text, &mut units) {
        Ok(n) if n <= SIGN_ROOM => say_keyed(rt, &units[..n]),
        Ok(_) => Ok(()),
        Err(_) => say(rt, b"!\n"),
    }
}

// The signs of the bytes from one to another.
fn say_signs(rt: &impl Print, first: u8, last: u8) -> io::Result<()> {
    for byte in first..=last {
        say_sign(rt, byte)?;
    }
    Ok(())
}

// The letters, the figures, then the full stop, the comma, the question mark and the slash.
fn main(rt: HostRuntime) -> io::Result<()> {
    say_signs(&rt, b'A', b'Z')?;
    say_signs(&rt, b'0', b'9')?;
    say_sign(&rt, b'.')?;
    say_sign(&rt, b',')?;
    say_sign(&rt, b'?')?;
    say_sign(&rt, b'/')
}
