// Refusal 31 of a LanQ text (Paper 1), by places in its bytes: one loop over the tokens keeps the lowest place at
// fault, and the names that are declared in the blocks that are open. Where these are more than 1,024, the loop goes
// over the text once for each of 251 classes of names; and where one class has more than 1,024, whether a name of it is
// in scope is found by going over its method's tokens once more. Each way gives the same answer.
#![tactic(auto)]

pub mod fault;
pub mod refusal;
