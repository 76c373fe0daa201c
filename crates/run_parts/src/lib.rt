// The processes' parts of the work store. `part` steps a process over its part, which is lent on from the middle of the
// store, so that no other word can be written; laws in proofs/ tie the parts to the layout of a configuration.
// `readiness` reads from a part whether its process is over, can move by itself, or offers to send or to receive, and
// writes nothing; what that means for the definitions' process is in proofs/Standing.antt.
#![tactic(auto)]

pub mod part;
pub mod readiness;
