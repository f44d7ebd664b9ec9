// The pair numbers of all tasks of a file: the end rows of each task, and then the numbers of each against all.
#![tactic(auto)]

pub mod ends;
pub mod numbers;
