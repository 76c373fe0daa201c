// An entry that writes one line and stays within its process: NEWQ, NEWC, GATE or MEAS, RET of the root frame, or a
// fault. The process is left as the line says.
#![tactic(auto)]

pub mod conclude;
pub mod ends;
