// What the names of a LanQ text do, token by token (Paper 1): in specs/ what each name does to the scopes, as a
// scan over the tokens finds it and as the tree has it, in proofs/ that both are the same where the text is in the
// grammar. So code finds refusal 31 in loops over the tokens.
#![tactic(auto)]
