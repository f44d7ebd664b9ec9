// The calls for C: numbers and slices only. A slice is a pointer and a number of elements.
#![tactic(auto)]

pub mod crpd_body;
pub mod crpd_costliest_run;
pub mod crpd_microseconds;
pub mod crpd_nested;
pub mod crpd_read;
pub mod crpd_replay;
pub mod crpd_response_times;
pub mod crpd_row;
pub mod crpd_states;
pub mod crpd_table;
pub mod crpd_write;
