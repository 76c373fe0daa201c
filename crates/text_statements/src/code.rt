// Statements and blocks, which hold each other. The nesting left falls, so no text goes deeper than 32.
ghost use Rattle.std.specs.Prelude.{◌+◌, is_ok};
ghost use Rattle.text_parse.specs.Equations.{statement_from, body_from, block_from, statements_from, unbraced_rule};
ghost use Rattle.text_types.specs.Answer.{place_at};
ghost use Rattle.text_statements.specs.WithinCode.{Within, Inside};

use crate::opening::{past_declarations, with_block};
use crate::parts::condition;
use crate::simple::simple;
use text_tokens::kinds::{CLOSE_BRACE, ELSE, IF, OPEN_BRACE, WHILE};
use text_tokens::next::next_token;
use text_types::place::{GrammarError, expect, next_kind};

// "code", where a block counts as one level more: 30 at its first token where none is left.
#[cycle(block_body_statement_statements_unbraced)]
fn statement(
    text: &[u8],
    from: usize,
    starts: &[usize; 32],
    n: usize,
    left: usize,
) -> Result<usize, GrammarError>
    requires { Inside text.now starts.now n left }
    ensures { Within text.now starts.now n from (statement_from left) (is_ok result) (place_at result) }
{
    let t = next_token(text, from);
    if t.kind == OPEN_BRACE {
        if left == 0 {
            return Err(GrammarError { at: t.start });
        }
        return block(text, from, starts, n, left - 1);
    }
    unbraced(text, from, starts, n, left)
}

// The body of an if, else or while: one level more, a block or not.
#[cycle(block_body_statement_statements_unbraced)]
fn body(
    text: &[u8],
    from: usize,
    starts: &[usize; 32],
    n: usize,
    left: usize,
) -> Result<usize, GrammarError>
    requires { Inside text.now starts.now n left }
    ensures { Within text.now starts.now n from (body_from left) (is_ok result) (place_at result) }
{
    let t = next_token(text, from);
    if left == 0 {
        return Err(GrammarError { at: t.start });
    }
    if t.kind == OPEN_BRACE {
        block(text, from, starts, n, left - 1)
    } else {
        unbraced(text, from, starts, n, left - 1)
    }
}

// "if ::= if ( expr ) code ( else code)?", "while ::= while ( expr ) code"; "else goes to the nearest if"
#[cycle(block_body_statement_statements_unbraced)]
fn unbraced(
    text: &[u8],
    from: usize,
    starts: &[usize; 32],
    n: usize,
    left: usize,
) -> Result<usize, GrammarError>
    requires { Inside text.now starts.now n left }
    ensures { Within text.now starts.now n from (unbraced_rule left) (is_ok result) (place_at result) }
{
    let t = next_token(text, from);
    if t.kind == WHILE {
        let test = condition(text, t.end, starts, n)?;
        return body(text, test, starts, n, left);
    }
    if t.kind != IF {
        return simple(text, from, starts, n);
    }
    let test = condition(text, t.end, starts, n)?;
    let then = body(text, test, starts, n, left)?;
    match expect(text, then, ELSE) {
        Ok(other) => body(text, other, starts, n, left),
        Err(_) => Ok(then),
    }
}

// "block ::= { varDeclaration code* }"
#[cycle(block_body_statement_statements_unbraced)]
fn block(
    text: &[u8],
    from: usize,
    starts: &[usize; 32],
    n: usize,
    left: usize,
) -> Result<usize, GrammarError>
    requires { Inside text.now starts.now n (left + 1) }
    ensures { Within text.now starts.now n from (block_from left) (is_ok result) (place_at result) }
{
    let first = expect(text, from, OPEN_BRACE)?;
    let d = past_declarations(text, first)?;
    let inner = with_block(*starts, n, first);
    statements(text, d, &inner, n + 1, left)
}

// "code*", up to and with the closing brace
#[cycle(block_body_statement_statements_unbraced)]
pub fn statements(
    text: &[u8],
    from: usize,
    starts: &[usize; 32],
    n: usize,
    left: usize,
) -> Result<usize, GrammarError>
    requires { Inside text.now starts.now n left }
    ensures { Within text.now starts.now n from (statements_from left) (is_ok result) (place_at result) }
{
    let mut at = from;
    while next_kind(text, at) != CLOSE_BRACE {
        at = statement(text, at, starts, n, left)?;
    }
    expect(text, at, CLOSE_BRACE)
}
