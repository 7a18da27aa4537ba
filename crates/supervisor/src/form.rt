// The three forms of a beacon.

// How much a beacon tells.
#[derive(Clone, Copy)]
pub enum Form {
    // mode and tension
    Basic = 1,
    // these, and the masks of the modules on and failed
    Complete = 2,
    // these, and the message
    Extended = 3,
}
