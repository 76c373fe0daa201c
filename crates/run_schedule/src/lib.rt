// The run of inputs to which no question says no, from the start of the store to the end of the run. `accepted_run`
// leaves what the defined run leaves: its numbers, the trace and the store. That no question says no is asked of its
// caller.
#![tactic(auto)]

pub mod accepted;
pub mod begin;
pub mod entries;
