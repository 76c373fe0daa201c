// The instructions of a table, one after the other: the op and the argument of each, and the method that owns it. Asked
// is that question 1 is passed, and for the owner question 2.
#![tactic(auto)]

pub mod owner;
pub mod words;
