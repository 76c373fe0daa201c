// An entry with one line, over the lent trace and work store: a gate, a measurement, a thing made, a fault, the end of
// a process. `result` has what any entry comes to.
#![tactic(auto)]

pub mod result;
pub mod single;
