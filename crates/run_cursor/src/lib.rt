// The ops on values of the top frame, for a process that goes on step by step: its place and its number of pending
// values are in a cursor, which is kept in locals, and its words are as they would be with the cursor put back. Each
// function does what its op does, or answers none: a fault is left undone.
#![tactic(auto)]

pub mod cursor;
pub mod jumps;
pub mod moves;
pub mod numbers;
