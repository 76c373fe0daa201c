// What a LanQ text declares (Paper 1), entered into two lent tables: the variables in scope, by the places of their
// names in the text, and the types of a method's slots. Slots are given out in text order; a method that needs more
// than 16 is not entered to its end. A place past the end reads as the end.
#![tactic(auto)]

pub mod declarations;
pub mod entry;
pub mod names;
pub mod parameters;
