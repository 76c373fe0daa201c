// What a token does in a LanQ text (Paper 1), by the tokens before it and the next one; the gate that has a name, and
// the level of the outermost open block that declares it, found by going over its method's tokens.
#![tactic(auto)]

pub mod gate;
pub mod level;
pub mod scan;
