// The work store by words: values, the head of a process by value, stretches cleared and moved, and things given away;
// and the numbers of things and processes as types of their own. A read past the end gives 0 and a write past it does
// nothing. Each contract is an equation with a function on lists of words (specs/StoreCode.antt); laws in proofs/ say
// what these words are in the layout.
#![tactic(auto)]

pub mod blocks;
pub mod giving;
pub mod head;
pub mod references;
pub mod values;
