// The nested sheet: whether its numbers keep the rules of checks 12 and 20, and which of the two decides.
#![tactic(auto)]

pub mod rules;
