// The ops that move values of the top frame and its place, which leave the frames below it alone and write no line:
// values pushed, taken and stored in slots, and jumps. Each works over the process's part of the work store. A function
// that can fault answers the fault and changes nothing.
#![tactic(auto)]

pub mod jumps;
pub mod moves;
