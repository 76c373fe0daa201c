// What one process hands to another, over the parts of both: FORK and the meeting of SEND and RECV, with their lines.
// The contracts are equations on the words of trace and store; that they leave the definitions' configuration and lines
// is in proofs/Stored.antt and Lines.antt. Asked is a store of 8,192 words and processes below 8.
#![tactic(auto)]

pub mod fork_lines;
pub mod forks;
pub mod meeting_lines;
pub mod meetings;
