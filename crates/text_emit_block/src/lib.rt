// The code of statements that hold others, written into a lent buffer while a text that is in the grammar is gone over
// (Paper 1). Each function takes where the emission stands and hands it on; none once something does not fit. The
// variables of a block are in scope up to its end, and the nesting left falls.
#![tactic(auto)]

pub mod code;
pub mod parts;
