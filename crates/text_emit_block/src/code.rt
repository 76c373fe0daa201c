// Statements and blocks, which hold each other. The nesting left falls with each level.
ghost use Rattle.std.specs.Prelude.{◌≤◌, length};
ghost use Rattle.text_parse.specs.Equations.{statement_from, body_from, block_from, unbraced_rule};
ghost use Rattle.text_methods.specs.IndexCode.{Indexed};
ghost use Rattle.text_emit.specs.Reached.{reached, there};
ghost use Rattle.text_emit_block.specs.BlockCode.{StatementTranslates, ThereTranslates, StatementsTranslate, OtherwiseTranslates, if_rule, while_rule};

use crate::parts::{advances, clears, condition, words};
use text_declare::declarations::declarations;
use text_emit::emit::{Emit, pass, patch, put};
use text_emit::simple::simple;
use text_tokens::kinds::{CLOSE_BRACE, ELSE, IF, OPEN_BRACE, WHILE};
use text_types::place::next_kind;

// "code", where a block counts as one level more.
#[cycle(block_body_conditional_otherwise_repeated_statement_statements_unbraced)]
fn statement(
    text: &[u8],
    methods: &[usize],
    e: Emit,
    scope: &mut [usize; 64],
    n: usize,
    row: &mut [u16; 18],
    pending: &mut [usize],
    code: &mut [usize],
    left: usize,
) -> Option<Emit>
    requires { (12288 ≤ length pending.old) × Indexed text.now methods.now }
    ensures { StatementTranslates (statement_from left) text.now n (there e) scope.old
        row.old code.old (reached result) scope.new row.new code.new }
{
    let kind = next_kind(text, e.at);
    if kind == OPEN_BRACE {
        if left == 0 {
            return None;
        }
        return block(text, methods, e, scope, n, row, pending, code, left - 1);
    }
    unbraced(text, methods, e, scope, n, row, pending, code, left)
}

// The body of an if, else or while: one level more, a block or not.
#[cycle(block_body_conditional_otherwise_repeated_statement_statements_unbraced)]
fn body(
    text: &[u8],
    methods: &[usize],
    e: Emit,
    scope: &mut [usize; 64],
    n: usize,
    row: &mut [u16; 18],
    pending: &mut [usize],
    code: &mut [usize],
    left: usize,
) -> Option<Emit>
    requires { (12288 ≤ length pending.old) × Indexed text.now methods.now }
    ensures { StatementTranslates (body_from left) text.now n (there e) scope.old
        row.old code.old (reached result) scope.new row.new code.new }
{
    if left == 0 {
        return None;
    }
    let kind = next_kind(text, e.at);
    if kind == OPEN_BRACE {
        return block(text, methods, e, scope, n, row, pending, code, left - 1);
    }
    unbraced(text, methods, e, scope, n, row, pending, code, left - 1)
}

// An if, a while, or a statement that holds no other, where all fits so far.
#[cycle(block_body_conditional_otherwise_repeated_statement_statements_unbraced)]
fn unbraced(
    text: &[u8],
    methods: &[usize],
    e: Emit,
    scope: &mut [usize; 64],
    n: usize,
    row: &mut [u16; 18],
    pending: &mut [usize],
    code: &mut [usize],
    left: usize,
) -> Option<Emit>
    requires { (12288 ≤ length pending.old) × Indexed text.now methods.now }
    ensures { ThereTranslates (unbraced_rule left) text.now n (there e) scope.old
        row.old code.old (reached result) scope.new row.new code.new }
{
    let kind = next_kind(text, e.at);
    if kind == IF {
        let word = pass(text, e);
        return conditional(text, methods, word, scope, n, row, pending, code, left);
    }
    if kind == WHILE {
        let word = pass(text, e);
        return repeated(text, methods, word, scope, n, row, pending, code, left);
    }
    simple(text, methods, e, scope, n, pending, code)
}

// "if ( expr ) code ( else code)?", after if: E, JFALSE L, S, L:; "else goes to the nearest if"
#[cycle(block_body_conditional_otherwise_repeated_statement_statements_unbraced)]
fn conditional(
    text: &[u8],
    methods: &[usize],
    e: Emit,
    scope: &mut [usize; 64],
    n: usize,
    row: &mut [u16; 18],
    pending: &mut [usize],
    code: &mut [usize],
    left: usize,
) -> Option<Emit>
    requires { (12288 ≤ length pending.old) × Indexed text.now methods.now }
    ensures { ThereTranslates (if_rule left) text.now n (there e) scope.old
        row.old code.old (reached result) scope.new row.new code.new }
{
    let c = condition(text, e, scope, n, pending, code)?;
    let test = put(code, c, 18, 0)?;
    let s = body(text, methods, test, scope, n, row, pending, code, left)?;
    let kind = next_kind(text, s.at);
    if kind == ELSE {
        let word = pass(text, s);
        return otherwise(
            text, methods, word, scope, n, row, pending, code, left, c.count,
        );
    }
    patch(code, s, c.count, s.count);
    Some(s)
}

// "code" after else: JUMP K, L: T, K:; the JFALSE that goes to L is instruction k.
#[cycle(block_body_conditional_otherwise_repeated_statement_statements_unbraced)]
fn otherwise(
    text: &[u8],
    methods: &[usize],
    e: Emit,
    scope: &mut [usize; 64],
    n: usize,
    row: &mut [u16; 18],
    pending: &mut [usize],
    code: &mut [usize],
    left: usize,
    k: usize,
) -> Option<Emit>
    requires { (12288 ≤ length pending.old) × Indexed text.now methods.now }
    ensures { OtherwiseTranslates left k text.now n (there e) scope.old
        row.old code.old (reached result) scope.new row.new code.new }
{
    let jump = put(code, e, 17, 0)?;
    patch(code, jump, k, jump.count);
    let t = body(text, methods, jump, scope, n, row, pending, code, left)?;
    patch(code, t, e.count, t.count);
    Some(t)
}

// "while ( expr ) code", after while: L: E, JFALSE K, S, JUMP L, K:
#[cycle(block_body_conditional_otherwise_repeated_statement_statements_unbraced)]
fn repeated(
    text: &[u8],
    methods: &[usize],
    e: Emit,
    scope: &mut [usize; 64],
    n: usize,
    row: &mut [u16; 18],
    pending: &mut [usize],
    code: &mut [usize],
    left: usize,
) -> Option<Emit>
    requires { (12288 ≤ length pending.old) × Indexed text.now methods.now }
    ensures { ThereTranslates (while_rule left) text.now n (there e) scope.old
        row.old code.old (reached result) scope.new row.new code.new }
{
    let c = condition(text, e, scope, n, pending, code)?;
    let test = put(code, c, 18, 0)?;
    let s = body(text, methods, test, scope, n, row, pending, code, left)?;
    let back = put(code, s, 17, e.count)?;
    patch(code, back, c.count, back.count);
    Some(back)
}

// "{ varDeclaration code* }", where all fits so far: CLEAR for each of its variables, then its statements.
#[cycle(block_body_conditional_otherwise_repeated_statement_statements_unbraced)]
fn block(
    text: &[u8],
    methods: &[usize],
    e: Emit,
    scope: &mut [usize; 64],
    n: usize,
    row: &mut [u16; 18],
    pending: &mut [usize],
    code: &mut [usize],
    left: usize,
) -> Option<Emit>
    requires { (12288 ≤ length pending.old) × Indexed text.now methods.now }
    ensures { ThereTranslates (block_from left) text.now n (there e) scope.old
        row.old code.old (reached result) scope.new row.new code.new }
{
    let long = words(scope);
    let open = pass(text, e);
    let Ok(d) = declarations(text, open.at, scope, row, n, e.used) else {
        return None;
    };
    let inner = Emit {
        at: d.at,
        used: d.used,
        count: e.count,
    };
    let cleared = clears(code, inner, e.used, d.used)?;
    statements(text, methods, cleared, scope, d.n, row, pending, code, left)
}

// "code*", up to and with the closing brace. A statement that is gone over ends further on.
#[cycle(block_body_conditional_otherwise_repeated_statement_statements_unbraced)]
pub fn statements(
    text: &[u8],
    methods: &[usize],
    e: Emit,
    scope: &mut [usize; 64],
    n: usize,
    row: &mut [u16; 18],
    pending: &mut [usize],
    code: &mut [usize],
    left: usize,
) -> Option<Emit>
    requires { (12288 ≤ length pending.old) × Indexed text.now methods.now }
    ensures { StatementsTranslate left text.now n (there e) scope.old
        row.old code.old (reached result) scope.new row.new code.new }
{
    let mut here = e;
    let mut kind = next_kind(text, here.at);
    while kind != CLOSE_BRACE {
        let s = statement(text, methods, here, scope, n, row, pending, code, left)?;
        let on = advances(text, here.at, s);
        if !on {
            return None;
        }
        here = s;
        kind = next_kind(text, here.at);
    }
    Some(pass(text, here))
}
