// Two machines whose frames are related and that act alike: what this means, in specs/, and that they then run alike,
// in proofs/. There is no code here.
#![tactic(auto)]
