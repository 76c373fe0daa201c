// The variables in scope. Entry j, 0 being the outermost, has four words: start and end of the name in the text, 1 if
// it is a channel with ends, and its slot.
ghost use Rattle.text_slots.specs.Placing.{SlotAnswer};

use text_tokens::bytes::same_word;

// A slot, 16 where the name is not declared, and whether it is that of a channel with ends.
#[derive(Drop)]
pub struct SlotAt {
    pub slot: usize,
    pub ends: bool,
}

// The slot of the name that stands at start up to end.
pub fn slot_of(text: &[u8], scope: &[usize; 64], n: usize, start: usize, end: usize) -> SlotAt
    ensures { SlotAnswer text.now scope.now n start end result.slot result.ends }
{
    if 16 < n {
        return SlotAt {
            slot: 16,
            ends: false,
        };
    }
    for k in (0..n).rev() {
        if same_word(text, start, end, scope[4 * k], scope[4 * k + 1]) {
            return SlotAt {
                slot: scope[4 * k + 3],
                ends: scope[4 * k + 2] == 1,
            };
        }
    }
    SlotAt {
        slot: 16,
        ends: false,
    }
}
