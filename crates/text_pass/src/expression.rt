// An expression, and the arguments of a call.
ghost use Rattle.std.specs.Prelude.{suc, ◌≤◌, is_ok};
ghost use Rattle.text.specs.Tree.{Expr, Exprs};
ghost use Rattle.text_parse.specs.Grammar.{Scopes};
ghost use Rattle.text_parse.specs.Equations.{expr_from, arguments_rule, method_params_from};
ghost use Rattle.text_tokens.specs.Places.{tokens_at};
ghost use Rattle.text_types.specs.Answer.{place_at};
ghost use Rattle.text_types.specs.SaysCode.{Says};
ghost use Rattle.text_scopes.specs.OpenCode.{Opened};

use crate::walk::{walk_deep, walk_shallow};
use text_tokens::kinds::{CLOSE, COMMA};
use text_types::place::{GrammarError, expect};

// "expr ::= indivExpr (op expr)? | new nonDupType ()". n blocks are open around it, and `starts` has the places at
// which their declarations begin, the outermost first.
pub fn expression(
    text: &[u8],
    from: usize,
    starts: &[usize; 32],
    n: usize,
) -> Result<usize, GrammarError>
    ensures { (scopes : Scopes) → Opened text.now starts.now n scopes → n ≤ 32
        → Says text.now (suc from) (λ (e : Expr). Unit {0}) (is_ok result) (place_at result)
        (expr_from scopes (tokens_at text.now from)) }
{
    match walk_shallow(text, from, starts, n) {
        Some(shallow) => shallow,
        None => walk_deep(text, from, starts, n),
    }
}

// "methodParams ::= expr (, expr)*", and the closing bracket.
fn method_params(
    text: &[u8],
    from: usize,
    starts: &[usize; 32],
    n: usize,
) -> Result<usize, GrammarError>
    ensures { (scopes : Scopes) → Opened text.now starts.now n scopes → n ≤ 32
        → Says text.now (suc from) (λ (es : Exprs). Unit {0}) (is_ok result) (place_at result)
        (method_params_from scopes (tokens_at text.now from)) }
{
    let mut at = from;
    loop {
        let e = expression(text, at, starts, n)?;
        match expect(text, e, COMMA) {
            // An expression has a token; that it has is not known here, where no blocks are.
            Ok(comma) if at < comma => at = comma,
            _ => return expect(text, e, CLOSE),
        }
    }
}

// "(methodParams?)", after its bracket.
pub fn arguments(
    text: &[u8],
    from: usize,
    starts: &[usize; 32],
    n: usize,
) -> Result<usize, GrammarError>
    ensures { (scopes : Scopes) → Opened text.now starts.now n scopes → n ≤ 32
        → Says text.now (suc from) (λ (es : Exprs). Unit {0}) (is_ok result) (place_at result)
        (arguments_rule scopes (tokens_at text.now from)) }
{
    if let Ok(close) = expect(text, from, CLOSE) {
        return Ok(close);
    }
    method_params(text, from, starts, n)
}
