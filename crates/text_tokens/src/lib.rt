// The tokens of a LanQ text (Paper 1) by places in its bytes: where the next token starts and ends, which word, mark or
// kind of token it is, and which number it says. The byte past the text's end is 0, so that nothing is asked of the
// caller.
#![tactic(auto)]

pub mod bytes;
pub mod ends;
pub mod kind;
pub mod kinds;
pub mod next;
pub mod number;
pub mod reader;
