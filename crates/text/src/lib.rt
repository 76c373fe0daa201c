// LanQ texts from their tree on (Paper 1; docs/TEXT.md). In specs/ the tree of a text, its meaning as rules on the
// tree, its program table, and what 31 and 32 refuse; in proofs/ that the table passes questions 1 to 5
// (Acceptance.antt) and that its run is the meaning's (SameRun.antt). There is no code here: how bytes are read into a
// tree, with 30, is not part of it.
#![tactic(auto)]
