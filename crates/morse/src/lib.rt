// Beacon text in telegraph units: the signs and the timing of ITU-R M.1677-1.
// `fault_of` says whether a text may be keyed, and `key` keys it. Reading a keying back is the crate `hearing`.
#![tactic(auto)]

pub mod answers;
pub mod keying;
mod signs;
pub mod texts;
pub mod units;

pub use keying::{KeyFault, key};
pub use texts::{Fault, fault_of};
pub use units::MOST_UNITS;
