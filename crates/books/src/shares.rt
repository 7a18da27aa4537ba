// The shares of a summary: what they are of a module's three numbers, and how they come into a room.
ghost use Rattle.std.specs.Prelude.{◌≤◌, ◌≡◌};
ghost use Rattle.books.specs.Books.{most_seconds};
ghost use Rattle.books.specs.Summary.{share_of, put_into};

use crate::numbers::MODULES;

// The share on of a module's three numbers, in thousandths, rounded down; 0 where they are 0.
pub(crate) fn share(on: u64, off: u64, failed: u64) -> u16
    requires { (on ≤ most_seconds) × (off ≤ most_seconds) × (failed ≤ most_seconds) }
    ensures { result ≡ share_of on off failed }
{
    let all = on + off + failed;
    if all == 0 {
        0
    } else {
        (on * 1000 / all) as u16
    }
}

// Puts shares at the front of a room, as many as it has place for. What stands past them stays.
#[tactic(auto, unfolding(crate::specs::Summary::put_into))]
pub fn put(shares: [u16; MODULES], room: &mut [u16])
    ensures { room.new ≡ put_into shares room.old }
{
    let n = room.len().min(MODULES);
    room[..n].copy_from_slice(&shares[..n]);
}
