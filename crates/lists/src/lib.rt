// Lists: the few definitions on lists that the table and the machine share, in specs/, and their laws, in proofs/.
// There is no code here.
#![tactic(auto)]
