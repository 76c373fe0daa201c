// The limits of a table (Paper 1, refusal 32), judged method by method in text order while a text is gone over.
#![tactic(auto)]

pub mod limits;
pub mod method;
