// The eight modules: their groups, what one does in a second, all eight through the module stage,
// their masks, and the ends of the mission four.
#![tactic(auto)]

pub mod ends;
pub mod groups;
pub mod masks;
pub mod power;
pub mod stage;
