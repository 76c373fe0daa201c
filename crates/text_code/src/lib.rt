// The code of statements as it is written into a buffer while a text is gone over (Paper 1): definitions and laws
// alone. A method is given by the place of the called name until the table is written.
#![tactic(auto)]
