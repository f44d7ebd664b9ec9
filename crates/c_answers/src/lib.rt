// What the calls answer, told to C in numbers: the status (0, or the check that fails first) is returned, and a lent list gets the task that
// the check names (255 if none) and the other numbers. A list that has not the answer's number of places gives 1 and is left as it was.
#![tactic(auto)]

pub mod filling;
pub mod nested;
pub mod place;
pub mod put;
pub mod reading;
pub mod replaying;
pub mod timing;
pub mod writing;
