// The library that flies: the state as bytes, and the calls that C and Rust make.
// `fields` has numbers as bytes, `codes` modes and modules as numbers, `saving` and `loading` the state as an image,
// `calls` what `flight_c` hands to C.
#![tactic(auto)]

pub mod calls;
mod codes;
mod fields;
mod loading;
mod saving;
