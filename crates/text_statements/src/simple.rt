// The statements that hold no other.
ghost use Rattle.std.specs.Prelude.{is_ok};
ghost use Rattle.text.specs.Tree.{Name};
ghost use Rattle.text_parse.specs.Grammar.{expect, expect_name};
ghost use Rattle.text_parse.specs.Equations.{named_statement_rule, fork_rule, send_rule, recv_rule, simple_rule};
ghost use Rattle.text_types.specs.Answer.{place_at};
ghost use Rattle.text_statements.specs.WithinCode.{Within};

use text_pass::expression::{arguments, expression};
use text_pass::measurement::measured_name;
use text_tokens::kinds::{
    ASSIGN, CLOSE, COMMA, FORK, MEASURE, NAME, OPEN, RECV, RETURN, SEMICOLON, SEND,
};
use text_tokens::next::next_token;
use text_types::place::{GrammarError, expect};

// "assignment ;", "methodCall ;" or "quantumOp ;", after the name
fn after_name(
    text: &[u8],
    from: usize,
    starts: &[usize; 32],
    n: usize,
) -> Result<usize, GrammarError>
    ensures { (x : Name) → Within text.now starts.now n from
        (λ scopes ts. named_statement_rule scopes x ts) (is_ok result) (place_at result) }
{
    let t = next_token(text, from);
    if t.kind == ASSIGN {
        let e = expression(text, t.end, starts, n)?;
        return expect(text, e, SEMICOLON);
    }
    if t.kind == OPEN {
        let list = arguments(text, t.end, starts, n)?;
        return expect(text, list, SEMICOLON);
    }
    Err(GrammarError { at: t.start })
}

fn named(text: &[u8], from: usize, starts: &[usize; 32], n: usize) -> Result<usize, GrammarError>
    ensures { Within text.now starts.now n from
        (λ scopes ts. expect_name ts (λ x us. named_statement_rule scopes x us)) (is_ok result) (place_at result) }
{
    let name = expect(text, from, NAME)?;
    after_name(text, name, starts, n)
}

// "fork ::= fork methodCall", "send ::= send ( expr , expr )", "recv ::= recv ( expr )", after the word, with ;
fn fork_rest(
    text: &[u8],
    from: usize,
    starts: &[usize; 32],
    n: usize,
) -> Result<usize, GrammarError>
    ensures { Within text.now starts.now n from fork_rule (is_ok result) (place_at result) }
{
    let name = expect(text, from, NAME)?;
    let open = expect(text, name, OPEN)?;
    let list = arguments(text, open, starts, n)?;
    expect(text, list, SEMICOLON)
}

fn send_rest(
    text: &[u8],
    from: usize,
    starts: &[usize; 32],
    n: usize,
) -> Result<usize, GrammarError>
    ensures { Within text.now starts.now n from send_rule (is_ok result) (place_at result) }
{
    let open = expect(text, from, OPEN)?;
    let channel = expression(text, open, starts, n)?;
    let comma = expect(text, channel, COMMA)?;
    let value = expression(text, comma, starts, n)?;
    let close = expect(text, value, CLOSE)?;
    expect(text, close, SEMICOLON)
}

fn recv_rest(
    text: &[u8],
    from: usize,
    starts: &[usize; 32],
    n: usize,
) -> Result<usize, GrammarError>
    ensures { Within text.now starts.now n from recv_rule (is_ok result) (place_at result) }
{
    let open = expect(text, from, OPEN)?;
    let channel = expression(text, open, starts, n)?;
    let close = expect(text, channel, CLOSE)?;
    expect(text, close, SEMICOLON)
}

pub fn simple(
    text: &[u8],
    from: usize,
    starts: &[usize; 32],
    n: usize,
) -> Result<usize, GrammarError>
    ensures { Within text.now starts.now n from simple_rule (is_ok result) (place_at result) }
{
    let t = next_token(text, from);
    if t.kind == SEMICOLON {
        return Ok(t.end);
    }
    if t.kind == MEASURE {
        let name = measured_name(text, t.end)?;
        return expect(text, name, SEMICOLON);
    }
    if t.kind == FORK {
        return fork_rest(text, t.end, starts, n);
    }
    if t.kind == SEND {
        return send_rest(text, t.end, starts, n);
    }
    if t.kind == RECV {
        return recv_rest(text, t.end, starts, n);
    }
    if t.kind == RETURN {
        let e = expression(text, t.end, starts, n)?;
        return expect(text, e, SEMICOLON);
    }
    named(text, from, starts, n)
}
