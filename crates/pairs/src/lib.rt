// The numbers of one task against all tasks at one point, from gathered rows.
#![tactic(auto)]

pub mod ends;
pub mod lives;
pub mod numbers;
