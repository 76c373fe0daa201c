// The code of an expression of a LanQ text with the methods numbered in any way, by their numbers in the table or by
// the places of their names: definitions and laws. No code.
#![tactic(auto)]
