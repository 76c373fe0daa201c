// The condition of an if and a while, the variables of a block emptied, and whether a statement is gone over.
ghost use Rattle.std.specs.Prelude.{◌<◌, ◌≤◌, length, true, ◌≡◌};
ghost use Rattle.text_parse.specs.Equations.{condition_rule};
ghost use Rattle.text_numbering.specs.CodeBy.{code_by, place_of};
ghost use Rattle.text_emit.specs.EmitCode.{Emits};
ghost use Rattle.text_emit.specs.Reached.{reached, there};
ghost use Rattle.text_emit_block.specs.BlockCode.{Advance, Clears};

use text_emit::emit::{Emit, pass, put};
use text_emit::parts::expression;

// "( expr )" of an if and a while.
pub fn condition(
    text: &[u8],
    e: Emit,
    scope: &[usize; 64],
    n: usize,
    pending: &mut [usize],
    code: &mut [usize],
) -> Option<Emit>
    requires { 12288 ≤ length pending.old }
    ensures { Emits condition_rule (code_by place_of) text.now scope.now n (there e)
        code.old (reached result) code.new }
{
    let open = pass(text, e);
    let x = expression(text, open, scope, n, pending, code)?;
    Some(pass(text, x))
}

// CLEAR for each slot from `from` up to `to`.
pub fn clears(code: &mut [usize], e: Emit, from: usize, to: usize) -> Option<Emit>
    ensures { Clears from to (there e) code.old (reached result) code.new }
{
    let mut r = e;
    for i in from..to {
        r = put(code, r, 6, i)?;
    }
    Some(r)
}

// Whether a part of the text from `from` up to s is gone over.
pub fn advances(text: &[u8], from: usize, s: Emit) -> bool
    ensures { Advance text.now from true s.at result }
{
    (from < s.at) & (s.at <= text.len())
}

// How many words a lent table has. An array that is lent as a slice shows its length.
pub fn words(table: &[usize]) -> usize
    ensures { result ≡ length table.now }
{
    table.len()
}
