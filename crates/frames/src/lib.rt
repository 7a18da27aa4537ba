// Frames as they come in: where each ends, what the bytes say, who sent them, why they are refused, and how a report
// names them.
#![tactic(auto)]

pub mod answer;
pub mod command;
pub mod cut;
pub mod frame;
pub mod greeting;
pub mod kind;
pub mod reading;
pub mod sender;
pub mod serial;
