// Rows gathered with their trails, and the blocks of a trail as a path.
#![tactic(auto)]

pub mod gather_trails;
pub mod write;
