// Questions 4 and 5 put to the code of one method of a LanQ text (Paper 1, refusal 32), by rows: all that is looked at
// is the method's code, its own row of the table, how many methods there are, and the row of a method that is called.
// So a method is judged also where the text's table would be too large to be written down.
#![tactic(auto)]

pub mod code;
pub mod instruction;
pub mod marked;
pub mod rows;
pub mod targets;
