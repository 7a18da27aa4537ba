// The supervisor: a state and a frame in, the next state, one answer and at most one report out.
// The walk of a frame: step, then frames (what the bytes say), then act (what it does), then report (what is written).
// What act calls: tick (deploy, or ending, control, the module stage and due), news, command (message: a greeting's).
// Acted and Crossing are of no public call: they are exported because the promises name them.
#![tactic(auto)]

mod act;
pub mod acted;
mod command;
pub mod control;
mod deploy;
mod due;
mod ending;
pub mod form;
pub mod fresh;
mod message;
mod news;
pub mod range;
mod report;
pub mod state;
pub mod step;
mod tick;
