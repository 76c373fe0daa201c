// The code of the arguments of a call, a fork or a gate.
ghost use Rattle.std.specs.Prelude.{◌≡◌, ◌&&◌, ◌≤◌, length};
ghost use Rattle.text_emit_expr.specs.Emitted.{ArgumentsEmitted, EndsWithin, ParametersEmitted, said};

use crate::expression::{EmitAt, Unfit, emit_expression};
use text_tokens::kinds::{CLOSE, COMMA};
use text_tokens::next::next_token;

// "expr (, expr)*", and the closing bracket.
fn emit_parameters(
    text: &[u8],
    from: usize,
    scope: &[usize; 64],
    n: usize,
    pending: &mut [usize],
    code: &mut [usize],
    count: usize,
) -> Result<EmitAt, Unfit>
    requires { (from ≤ length text.now) × (12288 ≤ length pending.old) × (count ≤ 4096) }
    ensures { ParametersEmitted text.now scope.now n from code.old count
        code.new (said result) × EndsWithin text.now from result }
{
    let mut r = emit_expression(text, from, scope, n, pending, code, count)?;
    let mut t = next_token(text, r.at);
    while t.kind == COMMA {
        r = emit_expression(text, t.end, scope, n, pending, code, r.count)?;
        t = next_token(text, r.at);
    }
    Ok(EmitAt {
        at: t.end,
        count: r.count,
    })
}

// "methodParams? )", after the opening bracket, after the `count` instructions that stand in the buffer.
pub fn emit_arguments(
    text: &[u8],
    from: usize,
    scope: &[usize; 64],
    n: usize,
    pending: &mut [usize],
    code: &mut [usize],
    count: usize,
) -> Result<EmitAt, Unfit>
    requires { (from ≤ length text.now) × (12288 ≤ length pending.old) × (count ≤ 4096) }
    ensures { ArgumentsEmitted text.now scope.now n from code.old count
        code.new (said result) × EndsWithin text.now from result }
{
    let t = next_token(text, from);
    if t.kind == CLOSE {
        return Ok(EmitAt { at: t.end, count });
    }
    emit_parameters(text, from, scope, n, pending, code, count)
}
