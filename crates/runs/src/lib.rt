// Runs: references on one lent cache, or on the two of a run without and with its preemptions, one by one, along a path and from point to point.
#![tactic(auto)]

pub mod both_runs;
pub mod part;
pub mod path;
pub mod replay_cache;
