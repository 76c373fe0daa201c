// The code of one expression of a LanQ text (Paper 1), written into a lent buffer in one pass over its tokens, with a
// lent stack of the instructions that wait. Only texts in the grammar get here: of others nothing is promised.
#![tactic(auto)]

pub mod arguments;
pub mod ended;
pub mod expression;
pub mod operand;
pub mod parts;
pub mod stack;
pub mod state;
