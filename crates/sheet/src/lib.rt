// The run sheet of Replay: whether its numbers keep the rules, and whether a path is complete.
#![tactic(auto)]

pub mod complete;
pub mod rules;
