// The graphs along which the states of a task are gathered.
#![tactic(auto)]

pub mod prepare;
pub mod task_rows;
