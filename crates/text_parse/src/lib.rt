// Reading a LanQ text (Paper 1): in specs/ the tokens of a text, the grammar as a reading of tokens into a tree, and
// what a text comes to: a refusal or a table; in proofs/ that the bound on the reading's depth is never met, and texts
// that run. There is no code here.
#![tactic(auto)]
