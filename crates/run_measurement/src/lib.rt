// MEAS, over the process's part of the work store, and the next outcome, which it alone uses. It answers what the line
// says; where it faults it changes nothing, and the line is the fault's.
#![tactic(auto)]

pub mod measured;
pub mod outcome;
