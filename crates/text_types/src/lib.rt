// Types, declarations and parameters of a LanQ text (Paper 1), read by places in its bytes: each function says up to
// which place its part of the grammar is read, or at which place the text leaves the grammar. A place past the end
// reads as the end.
#![tactic(auto)]

pub mod declarations;
pub mod found;
pub mod lookup;
pub mod names;
pub mod parameters;
pub mod place;
pub mod types;
