// Cutting bytes into frames by kind.
ghost use Rattle.std.specs.Prelude.{◌≡◌};
ghost use Rattle.frames.specs.Cut.{cut_of, front_bytes};

use crate::kind::total;

// Why no whole frame stands at the front of bytes.
#[derive(Clone, Copy, PartialEq, Eq)]
pub enum Uncut {
    // the start of a frame
    Short,
    // a byte that is no kind's number
    Unknown,
    // no bytes
    Empty,
}

// Cuts the frame at the front of the bytes: how many of them it has.
#[tactic(auto, unfolding(crate::specs::Cut::cut_of, crate::specs::Kind::known_total))]
pub fn cut(bytes: &[u8]) -> Result<usize, Uncut>
    ensures { result ≡ cut_of bytes.now }
{
    let first = bytes.first().ok_or(Uncut::Empty)?;
    let total = total(*first).ok_or(Uncut::Unknown)?;
    if bytes.len() < total {
        return Err(Uncut::Short);
    }
    Ok(total)
}

// How many of so many bytes are the frame's at their front: where its kind is unknown, or it is cut off, all of them.
pub fn front_bytes(front: Result<usize, Uncut>, all: usize) -> usize
    ensures { result ≡ front_bytes front all }
{
    front.unwrap_or(all)
}
