// The code and the row of one whole method of a LanQ text that is in the grammar (Paper 1): its header, the variables
// of its body, its statements, and the end of its code.
#![tactic(auto)]

pub mod body;
pub mod close;
pub mod header;
pub mod method;
