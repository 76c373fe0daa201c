// The machine: its definitions, in specs/, and what is proved of them, in proofs/: ownership, soundness, the run on one
// entry more, the cases of document 01. There is no code here; that the code is this machine is the contract of `run`.
#![tactic(auto)]
