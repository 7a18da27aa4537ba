// Numbers of more bytes than one: the low byte first.
ghost use Rattle.std.specs.Prelude.{◌≡◌, ◌+◌, ◌≤◌, length};
ghost use Rattle.std.proofs.lemmas.List.Edits.{sets};
ghost use Rattle.flight.specs.Fields.{pair_at, quad_at};

// The number whose two bytes stand from a place on. Of this and the next each is one call of std's, at a width of its own: a
// trait over both would stand for one line.
pub(crate) fn pair_at(bytes: &[u8], at: usize) -> u16
    requires { at + 2 ≤ length bytes.now }
    ensures { result ≡ pair_at at bytes.now }
{
    u16::from_le_bytes([bytes[at], bytes[at + 1]])
}

// The number whose four bytes stand from a place on.
pub(crate) fn quad_at(bytes: &[u8], at: usize) -> u32
    requires { at + 4 ≤ length bytes.now }
    ensures { result ≡ quad_at at bytes.now }
{
    u32::from_le_bytes([bytes[at], bytes[at + 1], bytes[at + 2], bytes[at + 3]])
}

// Stores bytes from a place on. Bytes and place stand apart, as in `bytes[at..at + N]`: the bound is the slice's own.
pub(crate) fn put<const N: usize>(bytes: &mut [u8], at: usize, part: [u8; N])
    requires { at + N ≤ length bytes.old }
    ensures { bytes.new ≡ sets bytes.old at part.entry }
{
    bytes[at..at + N].copy_from_slice(&part);
}
