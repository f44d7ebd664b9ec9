// The project file.
#![tactic(auto)]

pub mod answers;
pub mod contents;
pub mod head;
