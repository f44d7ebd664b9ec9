// The sets of cache blocks that are useful in a reaching row and replaced by end rows, from gathered rows.
#![tactic(auto)]

pub mod lanes;
pub mod replaced;
pub mod useful;
