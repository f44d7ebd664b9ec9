// The direct-mapped cache: blocks, rows, references and sets of cache blocks.
#![tactic(auto)]

pub mod blocks;
pub mod numbers;
pub mod references;
pub mod row;
pub mod sets;
