// One step where an operand is to come: the token t from the state's place on.
ghost use Rattle.std.specs.Prelude.{◌≡◌, ◌+◌, ◌<◌};
ghost use Rattle.text_tokens.specs.NextCode.{NextToken};
ghost use Rattle.text_emit_expr.specs.EndsCode.{Standing, Steps, CodeSteps, ValueSteps, StackSteps, CallSteps, opened};

use crate::parts::{allocated, measured};
use crate::stack::push;
use crate::state::{StateAt, emit, gave_up};
use text_slots::slots::slot_of;
use text_tokens::kinds::{ASSIGN, CLOSE, FALSE, MEASURE, NAME, NEW, NUMBER, OPEN, RECV, TRUE};
use text_tokens::next::{TokenAt, next_token};
use text_tokens::number::{TOO_LARGE, number_of};

// INT
fn number_step(text: &[u8], code: &mut [usize], s: StateAt, t: TokenAt) -> StateAt
    requires { (s.phase ≡ 0) × NextToken text.now s.at t × (t.kind ≡ 34) }
    ensures { ValueSteps text.now code.old s code.new result }
{
    let v = number_of(text, t.start, t.end);
    if TOO_LARGE <= v {
        return gave_up(s);
    }
    emit(code, s, 1, v as usize, 1, t.end)
}

// GET and MEAS
fn measure_step(
    text: &[u8],
    scope: &[usize; 64],
    n: usize,
    code: &mut [usize],
    s: StateAt,
    t: TokenAt,
) -> StateAt
    requires { (s.phase ≡ 0) × NextToken text.now s.at t × (t.kind ≡ 9) }
    ensures { CodeSteps text.now scope.now n code.old s code.new result }
{
    let q = measured(text, t.end);
    let v = slot_of(text, scope, n, q.start, q.end);
    let got = emit(code, s, 3, v.slot, 1, q.at);
    if got.phase == 4 {
        return got;
    }
    emit(code, got, 11, 0, 1, q.at)
}

// NEWQ, NEWC, or none
fn new_step(text: &[u8], code: &mut [usize], s: StateAt, t: TokenAt) -> StateAt
    requires { (s.phase ≡ 0) × NextToken text.now s.at t × (t.kind ≡ 8) }
    ensures { ValueSteps text.now code.old s code.new result }
{
    let a = allocated(text, t.end);
    emit(code, s, a.op, a.argument, 2, a.at)
}

// A value, a measurement, or new. Other tokens begin no operand.
fn value_step(
    text: &[u8],
    scope: &[usize; 64],
    n: usize,
    code: &mut [usize],
    s: StateAt,
    t: TokenAt,
) -> StateAt
    requires { (s.phase ≡ 0) × NextToken text.now s.at t × (t.kind ≡ 19 → ⊥) × (t.kind ≡ 15 → ⊥)
        × (t.kind ≡ 33 → ⊥) }
    ensures { CodeSteps text.now scope.now n code.old s code.new result }
{
    if t.kind == NUMBER {
        return number_step(text, code, s, t);
    }
    if t.kind == TRUE {
        return emit(code, s, 2, 1, 1, t.end);
    }
    if t.kind == FALSE {
        return emit(code, s, 2, 0, 1, t.end);
    }
    if t.kind == MEASURE {
        return measure_step(text, scope, n, code, s, t);
    }
    if t.kind == NEW {
        return new_step(text, code, s, t);
    }
    gave_up(s)
}

// "recv ( expr )": RECV waits for its bracket.
fn recv_step(text: &[u8], pending: &mut [usize], s: StateAt, t: TokenAt) -> StateAt
    requires { (s.phase ≡ 0) × NextToken text.now s.at t × (t.kind ≡ 15) }
    ensures { StackSteps text.now pending.old s pending.new result }
{
    let u = next_token(text, t.end);
    if u.kind == OPEN {
        return push(pending, s, 16, 0, u.end);
    }
    gave_up(s)
}

// "methodName ( methodParams? )", after its bracket at `from`: CALL waits for the closing bracket; the method is given
// by the place of its name.
fn call_step(
    text: &[u8],
    pending: &mut [usize],
    code: &mut [usize],
    s: StateAt,
    t: TokenAt,
    u: TokenAt,
) -> StateAt
    requires { (s.phase ≡ 0) × NextToken text.now s.at t × (t.kind ≡ 33) × NextToken text.now t.end u
        × (u.kind ≡ 19) }
    ensures { CallSteps text.now pending.old code.old s pending.new
        code.new result }
{
    let v = next_token(text, u.end);
    if v.kind == CLOSE {
        return emit(code, s, 12, t.start, 1, v.end);
    }
    push(pending, s, 12, t.start, u.end)
}

// A name: an assignment, whose PUT waits, a call, or the variable.
fn name_step(
    text: &[u8],
    scope: &[usize; 64],
    n: usize,
    pending: &mut [usize],
    code: &mut [usize],
    s: StateAt,
    t: TokenAt,
) -> StateAt
    requires { (s.phase ≡ 0) × NextToken text.now s.at t × (t.kind ≡ 33) }
    ensures { Steps text.now scope.now n pending.old code.old s
        pending.new code.new result }
{
    let u = next_token(text, t.end);
    if u.kind == OPEN {
        return call_step(text, pending, code, s, t, u);
    }
    let v = slot_of(text, scope, n, t.start, t.end);
    if u.kind == ASSIGN {
        return push(pending, s, 4, v.slot, u.end);
    }
    emit(code, s, 3, v.slot, 1, t.end)
}

// A bracket is open from here on.
pub fn open_bracket(s: StateAt, at: usize) -> StateAt
    requires { s.unclosed < at }
    ensures { result ≡ opened s at }
{
    StateAt {
        phase: 0,
        at,
        unclosed: s.unclosed + 1,
        entries: s.entries,
        count: s.count,
    }
}

pub fn operand_step(
    text: &[u8],
    scope: &[usize; 64],
    n: usize,
    pending: &mut [usize],
    code: &mut [usize],
    s: StateAt,
    t: TokenAt,
) -> StateAt
    requires { Standing text.now pending.old s × (s.phase ≡ 0) × NextToken text.now s.at t }
    ensures { Steps text.now scope.now n pending.old code.old s
        pending.new code.new result }
{
    if t.kind == OPEN {
        return open_bracket(s, t.end);
    }
    if t.kind == RECV {
        return recv_step(text, pending, s, t);
    }
    if t.kind == NAME {
        return name_step(text, scope, n, pending, code, s, t);
    }
    value_step(text, scope, n, code, s, t)
}
