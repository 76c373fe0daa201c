// The expressions and arguments within a statement.
ghost use Rattle.std.specs.Prelude.{◌≤◌, length};
ghost use Rattle.text_parse.specs.Equations.{expr_from, arguments_rule};
ghost use Rattle.text_numbering.specs.CodeBy.{code_by, arguments_by, place_of};
ghost use Rattle.text_emit.specs.EmitCode.{Emits};
ghost use Rattle.text_emit.specs.Reached.{reached, there};

use crate::emit::Emit;
use text_emit_expr::arguments::emit_arguments;
use text_emit_expr::expression::emit_expression;

pub fn expression(
    text: &[u8],
    e: Emit,
    scope: &[usize; 64],
    n: usize,
    pending: &mut [usize],
    code: &mut [usize],
) -> Option<Emit>
    requires { 12288 ≤ length pending.old }
    ensures { Emits expr_from (code_by place_of) text.now scope.now n (there e) code.old (reached result)
        code.new }
{
    if text.len() < e.at {
        return None;
    }
    if 4096 < e.count {
        return None;
    }
    let a = emit_expression(text, e.at, scope, n, pending, code, e.count).ok()?;
    Some(Emit {
        at: a.at,
        used: e.used,
        count: a.count,
    })
}

pub fn arguments(
    text: &[u8],
    e: Emit,
    scope: &[usize; 64],
    n: usize,
    pending: &mut [usize],
    code: &mut [usize],
) -> Option<Emit>
    requires { 12288 ≤ length pending.old }
    ensures { Emits arguments_rule (arguments_by place_of) text.now scope.now n (there e)
        code.old (reached result) code.new }
{
    if text.len() < e.at {
        return None;
    }
    if 4096 < e.count {
        return None;
    }
    let a = emit_arguments(text, e.at, scope, n, pending, code, e.count).ok()?;
    Some(Emit {
        at: a.at,
        used: e.used,
        count: a.count,
    })
}
