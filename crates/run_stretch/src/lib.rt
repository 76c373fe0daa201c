// Consecutive entries of one process that stay within it and write no line. Its place and its number of pending values
// are kept in locals over the entries of one frame; they are put back before CALL and RET, which lead to the next
// frame, and at the end. Whatever is not done here, a fault, a limit, an op with a line, is left undone: a stretch may
// stop before any entry, and the entry is taken the usual way. So the contracts say only that the entries passed are
// plain steps.
#![tactic(auto)]

pub mod stretch;
pub mod turn;
