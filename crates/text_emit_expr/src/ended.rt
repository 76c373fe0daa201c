// One step where an operand or an expression has ended: the token t from the state's place on.
ghost use Rattle.std.specs.Prelude.{◌≡◌, true, false, ◌≤◌, ◌<◌, MatchOption};
ghost use Rattle.text_tokens.specs.NextCode.{NextToken};
ghost use Rattle.text_emit_expr.specs.EndsCode.{Standing, Steps, CallSteps, operator_word, bracket_closed, goes, top_of};

use crate::stack::{flush, pop, push, top};
use crate::state::{StateAt, gone};
use text_tokens::kinds::{CLOSE, COMMA, EQUALS, LESS, MINUS, PLUS};
use text_tokens::next::TokenAt;

// ADD, SUB, EQ, LESS; none for what is no operator.
fn operator_op(kind: u8) -> Option<usize>
    ensures { MatchOption result (operator_word kind ≡ 0) (λ op. (op ≡ operator_word kind) × (op ≡ 0 → ⊥)) }
{
    if kind == PLUS {
        return Some(19);
    }
    if kind == MINUS {
        return Some(20);
    }
    if kind == EQUALS {
        return Some(21);
    }
    if kind == LESS {
        return Some(22);
    }
    None
}

// The innermost bracket that has no instruction is closed.
fn close_bracket(s: StateAt, at: usize) -> StateAt
    requires { 0 < s.unclosed }
    ensures { result ≡ bracket_closed s at }
{
    StateAt {
        phase: 1,
        at,
        unclosed: s.unclosed - 1,
        entries: s.entries,
        count: s.count,
    }
}

// A closing bracket: that of a call or of recv, whose instruction is written, a plain one, or none of this expression.
fn close_step(text: &[u8], pending: &[usize], code: &mut [usize], s: StateAt, t: TokenAt) -> StateAt
    requires { Standing text.now pending.now s × (s.phase ≡ 2) × NextToken text.now s.at t × (t.kind ≡ 20)
        × (goes (top_of pending.now s) true ≡ false) }
    ensures { CallSteps text.now pending.now code.old s pending.now
        code.new result }
{
    let op = top(pending, s);
    if (op == 12) | (op == 16) {
        return pop(pending, code, s, 1, t.end);
    }
    if 0 < s.unclosed {
        return close_bracket(s, t.end);
    }
    gone(s, 3, s.at)
}

// No operator follows: what waited for the end of the expression is written, and a bracket or a comma goes on with what
// is around it.
fn end_step(text: &[u8], pending: &[usize], code: &mut [usize], s: StateAt, t: TokenAt) -> StateAt
    requires { Standing text.now pending.now s × (1 ≤ s.phase) × (s.phase ≤ 2)
        × NextToken text.now s.at t × (operator_word t.kind ≡ 0) }
    ensures { CallSteps text.now pending.now code.old s pending.now
        code.new result }
{
    let e = flush(pending, code, gone(s, 2, s.at), true);
    if e.phase == 4 {
        return e;
    }
    if t.kind == CLOSE {
        return close_step(text, pending, code, e, t);
    }
    if (t.kind == COMMA) & (top(pending, e) == 12) {
        return gone(e, 0, t.end);
    }
    gone(e, 3, e.at)
}

// An operator after new T(): it goes on with the assignment that is open innermost, if there is one.
fn new_operator_step(
    text: &[u8],
    pending: &mut [usize],
    code: &mut [usize],
    s: StateAt,
    t: TokenAt,
    op: usize,
) -> StateAt
    requires { Standing text.now pending.old s × (s.phase ≡ 2) × NextToken text.now s.at t
        × (op ≡ operator_word t.kind) × (op ≡ 0 → ⊥) }
    ensures { CallSteps text.now pending.old code.old s pending.new
        code.new result }
{
    let e = flush(pending, code, s, false);
    if e.phase == 4 {
        return e;
    }
    if top(pending, e) == 4 {
        let u = pop(pending, code, e, 1, e.at);
        if u.phase == 4 {
            return u;
        }
        return push(pending, u, op, 0, t.end);
    }
    gone(e, 3, e.at)
}

pub fn ended_step(
    text: &[u8],
    pending: &mut [usize],
    code: &mut [usize],
    s: StateAt,
    t: TokenAt,
) -> StateAt
    requires { Standing text.now pending.old s × (1 ≤ s.phase) × (s.phase ≤ 2)
        × NextToken text.now s.at t }
    ensures { CallSteps text.now pending.old code.old s pending.new
        code.new result }
{
    let Some(op) = operator_op(t.kind) else {
        return end_step(text, pending, code, s, t);
    };
    if s.phase == 1 {
        return push(pending, s, op, 0, t.end);
    }
    new_operator_step(text, pending, code, s, t, op)
}
