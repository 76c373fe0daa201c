// An expression of a LanQ text read token by token (Paper 1): in specs/ the phases of such a reading and what is open
// around it, in proofs/ that it leaves the grammar where crate text_parse's reading does, and ends where that ends. So
// code reads brackets of any depth in one loop.
#![tactic(auto)]
