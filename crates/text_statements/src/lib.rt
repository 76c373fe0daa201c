// The statements of a LanQ text (Paper 1), read by places in its bytes: each function says up to which place its part
// of the grammar is read, or at which place the text leaves the grammar. The places at which the declarations of the
// open blocks begin go along, the outermost first, because an expression asks them what a name means.
#![tactic(auto)]

pub mod code;
pub mod opening;
pub mod parts;
pub mod simple;
