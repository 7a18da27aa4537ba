// Beacon text out of telegraph units: `read` reads back what the crate `morse` keys, and nothing else.
#![tactic(auto)]

mod decoding;
mod numbers;
pub mod reading;

pub use reading::{ReadFault, read};
