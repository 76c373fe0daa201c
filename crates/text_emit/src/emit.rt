// Where an emission stands, and the steps that it is made of: a token is passed, an instruction is put, an argument is
// put in later.
ghost use Rattle.std.specs.Prelude.{◌≡◌};
ghost use Rattle.text_tokens.specs.NextCode.{NextToken};
ghost use Rattle.text_emit.specs.EmitCode.{passed_by, PutsOne, Patches};
ghost use Rattle.text_emit.specs.Reached.{reached, there};

use text_emit_expr::state::put as put_words;
use text_tokens::next::{TokenAt, next_token};

// Where all fits so far: the place in the text, the slots given out, and the instructions in the buffer. A step that
// does not fit answers none.
#[derive(Clone, Copy)]
pub struct Emit {
    pub at: usize,
    pub used: usize,
    pub count: usize,
}

// The next token is passed.
pub fn pass(text: &[u8], e: Emit) -> Emit
    ensures { there result ≡ passed_by text.now (there e) }
{
    let t = next_token(text, e.at);
    Emit { at: t.end, ..e }
}

// The next token, which has been read, is passed.
pub fn pass_token(text: &[u8], e: Emit, t: TokenAt) -> Emit
    requires { NextToken text.now e.at t }
    ensures { there result ≡ passed_by text.now (there e) }
{
    Emit { at: t.end, ..e }
}

// An instruction is put, where there is room for it.
pub fn put(code: &mut [usize], e: Emit, op: usize, argument: usize) -> Option<Emit>
    ensures { PutsOne op argument (there e) code.old (reached result) code.new }
{
    if 4096 <= e.count {
        return None;
    }
    put_words(code, e.count, op, argument);
    Some(Emit {
        count: e.count + 1,
        ..e
    })
}

// The argument of instruction k is put in.
pub fn patch(code: &mut [usize], e: Emit, k: usize, argument: usize)
    ensures { Patches (there e) k argument code.old code.new }
{
    if 4096 <= k {
        return;
    }
    slices::put(code, 2 * k + 1, argument);
}
