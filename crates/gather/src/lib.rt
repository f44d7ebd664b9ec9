// Gathering the cache states of a graph of basic blocks.
#![tactic(auto)]

pub mod gather;
