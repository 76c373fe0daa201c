// The code of one expression.
ghost use Rattle.std.specs.Prelude.{◌≡◌, ◌≤◌, length};
ghost use Rattle.text_emit_expr.specs.EndsCode.{Standing, Steps};
ghost use Rattle.text_emit_expr.specs.Emitted.{EndsWithin, ExpressionEmitted, said};

use crate::ended::ended_step;
use crate::operand::operand_step;
use crate::state::StateAt;
use text_tokens::next::next_token;

// Where the code fits: the place after the expression, and the instructions in the buffer.
#[derive(Clone, Copy)]
pub struct EmitAt {
    pub at: usize,
    pub count: usize,
}

// The code does not fit: where its writing stopped, and the instructions in the buffer.
#[derive(Clone, Copy)]
pub struct Unfit {
    pub at: usize,
    pub count: usize,
}

// One token, or one part that holds no other.
fn step(
    text: &[u8],
    scope: &[usize; 64],
    n: usize,
    pending: &mut [usize],
    code: &mut [usize],
    s: StateAt,
) -> StateAt
    requires { Standing text.now pending.old s × (s.phase ≤ 2) }
    ensures { Steps text.now scope.now n pending.old code.old s
        pending.new code.new result }
{
    let t = next_token(text, s.at);
    if s.phase == 0 {
        return operand_step(text, scope, n, pending, code, s, t);
    }
    ended_step(text, pending, code, s, t)
}

// The code of the expression at `from`, after the `count` instructions that stand in the buffer, if it fits.
pub fn emit_expression(
    text: &[u8],
    from: usize,
    scope: &[usize; 64],
    n: usize,
    pending: &mut [usize],
    code: &mut [usize],
    count: usize,
) -> Result<EmitAt, Unfit>
    requires { (from ≤ length text.now) × (12288 ≤ length pending.old) × (count ≤ 4096) }
    ensures { ExpressionEmitted text.now scope.now n from code.old count
        code.new (said result) × EndsWithin text.now from result }
{
    let mut s = StateAt {
        phase: 0,
        at: from,
        unclosed: 0,
        entries: 0,
        count,
    };
    while s.phase < 3 {
        s = step(text, scope, n, pending, code, s);
    }
    if s.phase != 3 {
        return Err(Unfit {
            at: s.at,
            count: s.count,
        });
    }
    Ok(EmitAt {
        at: s.at,
        count: s.count,
    })
}
