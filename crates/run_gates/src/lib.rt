// What an op that writes one line answers, and those of these ops that use no outcome and stay within their process:
// NEWQ, NEWC and GATE, each over the process's part of the work store. A function answers what the line says; where the
// op faults it changes nothing, and the line is the fault's.
#![tactic(auto)]

pub mod event;
pub mod faults;
pub mod gates;
pub mod made;
