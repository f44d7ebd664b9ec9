// A block of a task, and the rows that a task has for each of its blocks.
#![tactic(auto)]

pub mod block;
pub mod held;
pub mod row_list;
