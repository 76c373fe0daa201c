// The methods of a LanQ text (Paper 1) and the whole of it: where it leaves the grammar or the nesting (refusal 30).
#![tactic(auto)]

pub mod method;
pub mod program;
