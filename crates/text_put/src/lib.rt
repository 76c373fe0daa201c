// The words of a LanQ text's table (Paper 1), written into a lent buffer: pairs and rows in the table's order, and the
// code of a method with the called methods by their numbers.
#![tactic(auto)]

pub mod code;
pub mod order;
pub mod words;
