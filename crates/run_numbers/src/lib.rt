// The ops on ints and booleans of the top frame, over the process's part of the work store. A function that can fault
// answers the fault and changes nothing.
#![tactic(auto)]

pub mod numbers;
