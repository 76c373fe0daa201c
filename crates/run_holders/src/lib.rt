// Who holds each channel end, kept from the lines of the trace in a table of 16 by 2 holder numbers, 65535 for nobody,
// and the holders of all things in the work store. That the table says what the lines say is in proofs/Holding.antt,
// that the stored words do in proofs/StoredWords.antt.
#![tactic(auto)]

pub mod ends;
pub mod notes;
pub mod stored;
pub mod update;
