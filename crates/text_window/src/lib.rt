// What is kept of the brackets that are open around a place of an expression (Paper 1), and what a token makes of it.
#![tactic(auto)]

pub mod window;
