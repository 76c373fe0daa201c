// The program table: its definitions, in specs/, the facts that follow from the questions, in proofs/, and the reading
// of one word.
#![tactic(auto)]

pub mod program;
pub mod words;
