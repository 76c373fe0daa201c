// The code of statements that hold no other, written into a lent buffer while a text is gone over (Paper 1). Each step
// takes where the emission stands and hands it on; none once something does not fit.
#![tactic(auto)]

pub mod calls;
pub mod emit;
pub mod parts;
pub mod simple;
pub mod values;
