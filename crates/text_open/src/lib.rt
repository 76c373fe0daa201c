// The names declared in the blocks of a LanQ text (Paper 1) that are open at a token, in a lent slice with room for
// 1,024; and 251 classes of names, so that where there is no room a pass may enter the names of one class alone.
#![tactic(auto)]

pub mod class;
pub mod open;
