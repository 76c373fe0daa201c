// Traces, six 16-bit words to a line, a part of a line at the end ignored.
// `lookup::qubit_holder` answers who holds a qubit by the first k lines, if somebody does, and how many lines it read:
// from the last one backwards, up to the line that decides. `same::same_lines` answers whether two traces have the same
// lines, column 0 left out, and the same gaps: from each line to the next, the entry number in column 0 changes by as
// much. Each answer is its definition's (specs/Trace.antt), for any words, and nothing is asked of the caller. The
// contracts say nothing of the time taken: the look-up goes through the lines that it counts, the comparison through
// the lines up to the first difference.
#![tactic(auto)]

pub mod lookup;
pub mod read;
pub mod same;
