// The beacon's text, of a state.
// `text` has its bytes, `writing` puts them into a room.
#![tactic(auto)]

pub mod text;
pub mod writing;
