// The row of a method of a LanQ text (Paper 1) as a call of it looks at it, read from the method's header: the return
// type, how many parameters there are, and the types of the first 16.
#![tactic(auto)]

pub mod header;
pub mod parameters;
