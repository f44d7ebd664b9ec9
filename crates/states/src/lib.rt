// The reaching and live states of a task, in a work area.
#![tactic(auto)]

pub mod states;
