// The rows at the points of a block, where some of its references are done.
#![tactic(auto)]

pub mod done;
pub mod left;
