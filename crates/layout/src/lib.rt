// The layout of the final configuration in the work store: its definition, in specs/, and the proof that it can be
// read back, in proofs/. There is no code here.
#![tactic(auto)]
