// Two stations' moves exchanged (Paper 12): which neighbouring entries of a schedule may change places, in specs/, and
// that the run keeps its configuration, end and counts, and what of the lines stays, in proofs/. There is no code here;
// what follows for the buffers of `run` is in crates/run/proofs/Exchanges.antt.
#![tactic(auto)]
