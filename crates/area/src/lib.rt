// The work area of a task's states: its rows put in dictionary order, its counts, and the rows handed back.
#![tactic(auto)]

pub mod fill;
pub mod row;

// The length of a work area for rows of sixteen places.
pub const AREA_LENGTH: usize = 24832;
