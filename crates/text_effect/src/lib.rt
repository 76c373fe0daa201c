// What may come next in an expression of a LanQ text (Paper 1), and what a token does there, by its kind.
#![tactic(auto)]

pub mod effect;
pub mod phase;
