// Text written into a lent buffer of bytes.
// `writing` writes numbers, lines of a trace, a refusal and the last line of a run, as ASCII: each function leaves the
// buffer with exactly the definition's bytes from an index on (crates/print_format/specs/Format.antt), and answers the
// index after them. Nothing is asked of the caller but an index that can be computed with. `traces` writes the first
// lines of a trace, as many as the caller knows to be there. What does not fit the lent buffer is left out, and the
// answer counts it all the same: the caller compares it with the buffer's length (`put_from-take` says what stands there
// if it fits). The contracts say nothing of the time taken.
#![tactic(auto)]

pub mod traces;
pub mod writing;
