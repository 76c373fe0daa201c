// An expression of a LanQ text (Paper 1) read in one loop over its tokens, whatever the depth of its brackets.
#![tactic(auto)]

pub mod expression;
pub mod measurement;
pub mod walk;
