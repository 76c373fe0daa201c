// The parts of an expression that hold no other: a measurement and new, after their words.
ghost use Rattle.std.specs.Prelude.{◌≡◌};
ghost use Rattle.text_emit_expr.specs.PartsCode.{Reach, MeasuredUpTo, BracketsUpTo, AllocatedUpTo};

use text_tokens::kinds::{CHANNEL, QBIT};
use text_tokens::next::next_token;
use text_types::types::bracketed;

// A name at start up to end, and the place after what it stands in.
#[derive(Drop)]
pub struct NameUpTo {
    pub start: usize,
    pub end: usize,
    pub at: usize,
}

// An instruction, and the place after what it stands for.
#[derive(Drop)]
pub struct CodeUpTo {
    pub op: usize,
    pub argument: usize,
    pub at: usize,
}

// "( StdBasis , variableName )"
pub fn measured(text: &[u8], from: usize) -> NameUpTo
    ensures { MeasuredUpTo text.now from result.start result.end result.at × Reach text.now from result.at }
{
    let opening = next_token(text, from);
    let basis = next_token(text, opening.end);
    let comma = next_token(text, basis.end);
    let name = next_token(text, comma.end);
    let closing = next_token(text, name.end);
    NameUpTo {
        start: name.start,
        end: name.end,
        at: closing.end,
    }
}

// "( )"
fn brackets(text: &[u8], from: usize) -> usize
    ensures { BracketsUpTo text.now from result × Reach text.now from result }
{
    let opening = next_token(text, from);
    let closing = next_token(text, opening.end);
    closing.end
}

// "nonDupType ( )": NEWQ, NEWC with what the channel carries; no op makes an end.
pub fn allocated(text: &[u8], from: usize) -> CodeUpTo
    ensures { AllocatedUpTo text.now from result.op result.argument result.at × Reach text.now from result.at
        × (result.op ≡ 1 → ⊥) }
{
    let t = next_token(text, from);
    if t.kind == QBIT {
        return CodeUpTo {
            op: 7,
            argument: 0,
            at: brackets(text, t.end),
        };
    }
    let Ok(carried) = bracketed(text, t.end) else {
        return CodeUpTo {
            op: 0,
            argument: 0,
            at: t.end,
        };
    };
    let end = brackets(text, carried.at);
    if t.kind == CHANNEL {
        return CodeUpTo {
            op: 8,
            argument: carried.code as usize,
            at: end,
        };
    }
    CodeUpTo {
        op: 0,
        argument: 0,
        at: end,
    }
}
