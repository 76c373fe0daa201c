// CALL and RET of a process whose words are known to be there: what the op does is done, or nothing is.
#![tactic(auto)]

pub mod frames;
