// Statements that hold no other, after their word.
ghost use Rattle.std.specs.Prelude.{◌≤◌, length};
ghost use Rattle.text_parse.specs.Equations.{recv_rule, send_rule, fork_rule};
ghost use Rattle.text_tokens.specs.NextCode.{NextToken};
ghost use Rattle.text_methods.specs.IndexCode.{Indexed};
ghost use Rattle.text_emit.specs.EmitCode.{StatementEmits, StatementFrom, InvokeFrom, NamedEmits, SimpleEmits, give_rule, measure_rule, assign_rule};
ghost use Rattle.text_emit.specs.Reached.{reached, there};

use crate::calls::put_invocation;
use crate::emit::{Emit, pass, pass_token, put};
use crate::parts::{arguments, expression};
use crate::values::put_value;
use text_emit_expr::parts::measured;
use text_slots::slots::slot_of;
use text_tokens::kinds::{ASSIGN, FORK, MEASURE, RECV, RETURN, SEMICOLON, SEND};
use text_tokens::next::{TokenAt, next_token};
use text_types::place::next_kind;

// "recv ( expr ) ;": RECV, DROP.
pub fn receive(
    text: &[u8],
    e: Emit,
    scope: &[usize; 64],
    n: usize,
    pending: &mut [usize],
    code: &mut [usize],
) -> Option<Emit>
    requires { 12288 ≤ length pending.old }
    ensures { StatementEmits recv_rule text.now scope.now n (there e) code.old (reached result)
        code.new }
{
    let open = pass(text, e);
    let x = expression(text, open, scope, n, pending, code)?;
    let close = pass(text, x);
    let end = pass(text, close);
    let received = put(code, end, 16, 0)?;
    put(code, received, 5, 0)
}

// "send ( expr , expr ) ;": SEND.
pub fn send(
    text: &[u8],
    e: Emit,
    scope: &[usize; 64],
    n: usize,
    pending: &mut [usize],
    code: &mut [usize],
) -> Option<Emit>
    requires { 12288 ≤ length pending.old }
    ensures { StatementEmits send_rule text.now scope.now n (there e) code.old (reached result)
        code.new }
{
    let open = pass(text, e);
    let x = expression(text, open, scope, n, pending, code)?;
    let comma = pass(text, x);
    let v = expression(text, comma, scope, n, pending, code)?;
    let close = pass(text, v);
    let end = pass(text, close);
    put(code, end, 15, 0)
}

// "return expr ;": RET.
pub fn give(
    text: &[u8],
    e: Emit,
    scope: &[usize; 64],
    n: usize,
    pending: &mut [usize],
    code: &mut [usize],
) -> Option<Emit>
    requires { 12288 ≤ length pending.old }
    ensures { StatementEmits give_rule text.now scope.now n (there e) code.old (reached result)
        code.new }
{
    let x = expression(text, e, scope, n, pending, code)?;
    let end = pass(text, x);
    put(code, end, 13, 0)
}

// "fork methodCall ;": FORK with the place of the method's name.
pub fn fork(
    text: &[u8],
    e: Emit,
    scope: &[usize; 64],
    n: usize,
    pending: &mut [usize],
    code: &mut [usize],
) -> Option<Emit>
    requires { 12288 ≤ length pending.old }
    ensures { StatementFrom fork_rule text.now scope.now n (there e) code.old (reached result)
        code.new }
{
    let method = next_token(text, e.at);
    let name = pass_token(text, e, method);
    let open = pass(text, name);
    let xs = arguments(text, open, scope, n, pending, code)?;
    let end = pass(text, xs);
    put(code, end, 14, method.start)
}

// "measure ( StdBasis , variableName ) ;": GET, MEAS, DROP.
pub fn measure(
    text: &[u8],
    e: Emit,
    scope: &[usize; 64],
    n: usize,
    code: &mut [usize],
) -> Option<Emit>
    ensures { StatementFrom measure_rule text.now scope.now n (there e) code.old (reached result)
        code.new }
{
    let name = measured(text, e.at);
    let end = pass(text, Emit { at: name.at, ..e });
    let q = slot_of(text, scope, n, name.start, name.end);
    let got = put(code, end, 3, q.slot)?;
    let measured = put(code, got, 11, 0)?;
    put(code, measured, 5, 0)
}

// "variableName = expr ;": PUT, DROP; for a channel with ends, its ends too.
pub fn assign(
    text: &[u8],
    e: Emit,
    t: TokenAt,
    scope: &[usize; 64],
    n: usize,
    pending: &mut [usize],
    code: &mut [usize],
) -> Option<Emit>
    requires { (12288 ≤ length pending.old) × NextToken text.now e.at t }
    ensures { StatementFrom assign_rule text.now scope.now n (there e) code.old (reached result)
        code.new }
{
    let s = slot_of(text, scope, n, t.start, t.end);
    let name = pass_token(text, e, t);
    let equals = pass(text, name);
    let x = expression(text, equals, scope, n, pending, code)?;
    let end = pass(text, x);
    put_value(code, end, s.slot, s.ends)
}

// "methodCall ;" and "quantumOp ;": CALL, and DROP unless the method is void; or GATE.
pub fn invoke(
    text: &[u8],
    methods: &[usize],
    e: Emit,
    t: TokenAt,
    scope: &[usize; 64],
    n: usize,
    pending: &mut [usize],
    code: &mut [usize],
) -> Option<Emit>
    requires { (12288 ≤ length pending.old) × Indexed text.now methods.now
        × NextToken text.now e.at t }
    ensures { InvokeFrom text.now scope.now n (there e) code.old (reached result)
        code.new }
{
    let name = pass_token(text, e, t);
    let open = pass(text, name);
    let xs = arguments(text, open, scope, n, pending, code)?;
    let end = pass(text, xs);
    put_invocation(text, methods, code, end, t.start, t.end)
}

// A statement that starts with the name t.
fn named(
    text: &[u8],
    methods: &[usize],
    e: Emit,
    t: TokenAt,
    scope: &[usize; 64],
    n: usize,
    pending: &mut [usize],
    code: &mut [usize],
) -> Option<Emit>
    requires { (12288 ≤ length pending.old) × Indexed text.now methods.now
        × NextToken text.now e.at t }
    ensures { NamedEmits text.now scope.now n (there e) code.old (reached result)
        code.new }
{
    let name = pass_token(text, e, t);
    let kind = next_kind(text, name.at);
    if kind == ASSIGN {
        return assign(text, e, t, scope, n, pending, code);
    }
    invoke(text, methods, e, t, scope, n, pending, code)
}

// A statement that holds no other.
pub fn simple(
    text: &[u8],
    methods: &[usize],
    e: Emit,
    scope: &[usize; 64],
    n: usize,
    pending: &mut [usize],
    code: &mut [usize],
) -> Option<Emit>
    requires { (12288 ≤ length pending.old) × Indexed text.now methods.now }
    ensures { SimpleEmits text.now scope.now n (there e) code.old (reached result)
        code.new }
{
    let t = next_token(text, e.at);
    let after = pass_token(text, e, t);
    if t.kind == SEMICOLON {
        return Some(after);
    }
    if t.kind == MEASURE {
        return measure(text, after, scope, n, code);
    }
    if t.kind == FORK {
        return fork(text, after, scope, n, pending, code);
    }
    if t.kind == SEND {
        return send(text, after, scope, n, pending, code);
    }
    if t.kind == RECV {
        return receive(text, after, scope, n, pending, code);
    }
    if t.kind == RETURN {
        return give(text, after, scope, n, pending, code);
    }
    named(text, methods, e, t, scope, n, pending, code)
}
