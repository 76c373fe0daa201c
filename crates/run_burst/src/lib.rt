// The entries of a schedule from one that writes lines to the next: first those that write none, all in one loop, then
// the entry at which that loop stops. Each function's contract is an equation on the words of trace and store; that
// these are the entries of the definitions is proved in the crate schedule.
#![tactic(auto)]

pub mod burst;
pub mod consecutive;
pub mod knowledge;
pub mod turn;
