// The methods of a LanQ text (Paper 1), found by places in its bytes: loops over the tokens, which count the braces and
// brackets that are open. One that goes over the whole text writes an index of them, by which names are then found.
#![tactic(auto)]

pub mod arguments;
pub mod braces;
pub mod find;
pub mod index;
pub mod methods;
