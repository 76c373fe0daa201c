// What is read from a work store that a run has left: the holder of a thing, from the word where it is stored, in
// constant time. `stored_holder` answers for any words, of any length; that after a run it is the holder that the lines
// give is proved in the crate run (proofs/Holders.antt).
#![tactic(auto)]

ghost use Rattle.std.specs.Prelude.{◌≡◌};
ghost use Rattle.store_read.specs.Stored.{word_of, word_if, stored_holder};

use slices::at_or;

// Which of the 64 words is the thing's, if there is such a thing.
#[tactic(auto, using(std::proofs::lemmas::Bool::Decides::nat_tests), unfolding(crate::specs::Stored::word_of))]
fn word_of(kind: u64, number: u64) -> Option<usize>
    ensures { result ≡ word_if (word_of kind number) }
{
    match kind {
        3 if number < 32 => Some(number as usize),
        5 if number < 16 => Some(32 + 2 * (number as usize)),
        6 if number < 16 => Some(33 + 2 * (number as usize)),
        _ => None,
    }
}

// The holder of qubit `number` (kind 3), or of end 0 (kind 5) or end 1 (kind 6) of channel `number`.
#[tactic(auto, using(std::proofs::lemmas::Bool::Decides::nat_tests), unfolding(crate::specs::Stored::stored_holder))]
pub fn stored_holder(work: &[u32], kind: u64, number: u64) -> u16
    ensures { result ≡ stored_holder work.now kind number }
{
    match word_of(kind, number) {
        Some(i) if 8256 <= work.len() => (at_or(work, 8192 + i, 0) % 65536) as u16,
        _ => 65535,
    }
}
