// Seconds in the books: how long each module was on, off and failed, in numbers that the caller lends.
// `numbers` has the 24 numbers and what a tick adds to them, `step` a call of the supervisor that keeps them, `summary`
// each module's share on by `shares`, `answer` what these calls answer.
#![tactic(auto)]

pub mod answer;
pub mod numbers;
pub mod shares;
pub mod step;
pub mod summary;
