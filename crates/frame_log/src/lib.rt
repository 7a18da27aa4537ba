// The log of a flight: a stream of frames cut by kind, and a line a frame.
// The walk of a stream: entry (the frame at the front), line (what is printed).
#![tactic(auto)]

pub mod entry;
pub mod line;
mod text;
