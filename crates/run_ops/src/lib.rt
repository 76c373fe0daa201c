// The ops that stay within one process and write no line, each over the process's part of the work store: CALL and RET
// here, the others from run_moves and run_numbers; and one step. A function that can fault answers the fault and
// changes nothing.
#![tactic(auto)]

pub mod calls;
pub mod step;
