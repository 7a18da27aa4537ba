// Serials: an origin's last one, and the class of the next by its distance.
ghost use Rattle.std.specs.Prelude.{◌≡◌};
ghost use Rattle.frames.specs.Serial.{class_of, last_of, moved_to};

use crate::sender::{Origin, Sender};

// Each origin's last serial.
#[derive(Clone, Copy)]
pub struct Serials {
    pub ground: u16,
    pub payload: u16,
}

// A serial beside its origin's last.
#[derive(Clone, Copy)]
pub enum Class {
    // the last one again
    Repeat,
    // ahead of it
    Fresh,
    // behind it
    Stale,
}

// The distance from which on a serial is stale.
const STALE_FROM: u16 = 32768;

impl Serials {
    // An origin's last serial.
    fn last(self, origin: Origin) -> u16
        ensures { result ≡ last_of origin self }
    {
        match origin {
            Origin::Ground => self.ground,
            Origin::Payload => self.payload,
        }
    }

    // The class of a sender's serial, by its distance from the last one of its origin.
    #[tactic(auto, unfolding(crate::specs::Serial::class_of))]
    pub fn class(self, sender: Sender) -> Class
        ensures { result ≡ class_of sender.serial (last_of sender.origin self) }
    {
        match sender.serial.wrapping_sub(self.last(sender.origin)) {
            0 => Class::Repeat,
            1..STALE_FROM => Class::Fresh,
            _ => Class::Stale,
        }
    }

    // The serials once a fresh one has become the last of its origin.
    pub fn moved(mut self, sender: Sender) -> Serials
        ensures { result ≡ moved_to sender.origin sender.serial self }
    {
        match sender.origin {
            Origin::Ground => self.ground = sender.serial,
            Origin::Payload => self.payload = sender.serial,
        }
        self
    }
}
