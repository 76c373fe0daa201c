// The program table of a LanQ text (Paper 1), word by word, into a lent buffer: main's words first, then those of the
// other methods in text order.
#![tactic(auto)]

pub mod code;
pub mod whole;
