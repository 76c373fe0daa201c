// Questions 4 and 5 put to the code of a method of a LanQ text as it is written while the text is gone over (Paper 1,
// refusal 32): a call names its method by a place in the text, and the method's row is read from its header.
#![tactic(auto)]

pub mod callee;
pub mod method;
pub mod words;
