// What the printing program prints for a file: the definition, in specs/, and what it comes to on small files, in
// proofs/. There is no code here; that `print_text` writes this text is its contract.
#![tactic(auto)]
