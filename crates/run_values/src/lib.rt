// What the ops on values of the top frame have in common: the answer of a step, operands read, and values pushed, taken
// and stored, over the process's part of the work store.
#![tactic(auto)]

pub mod moves;
pub mod operands;
pub mod steps;
