// Bytes copied, and a number as a hex digit.
ghost use Rattle.std.specs.Prelude.{◌≡◌, ◌≤◌, ◌<◌, ◌++◌, length, take, drop};
ghost use Rattle.basics.specs.Bytes.{hex_digit};

// Copies bytes to the front of a room, which is long enough, and gives how many they are; the room past them stays.
pub fn copy(src: &[u8], room: &mut [u8]) -> usize
    requires { length src.now ≤ length room.old }
    ensures { (result ≡ length src.now) × (room.new ≡ take (length src.now) src.now ++ drop (length src.now) room.old) }
{
    let n = src.len();
    room[0..n].copy_from_slice(src);
    n
}

// The upper-case hex digit of a number below 16. By hand: std's `char::from_digit` gives an Option of a lower-case character.
pub fn hex_digit(n: u8) -> u8
    requires { n < 16 }
    ensures { result ≡ hex_digit n }
{
    if n < 10 { b'0' + n } else { b'A' + (n - 10) }
}
