// Whether a name means a channel with ends, by the blocks that are open around it.
#![tactic(auto)]

ghost use Rattle.std.specs.Prelude.{◌≡◌, List, ◌≤◌, ◌<◌, get_or};
ghost use Rattle.std.proofs.Math.Seq.{slice};
ghost use Rattle.text.specs.Tree.{Name, Declared};
ghost use Rattle.text_parse.specs.Grammar.{Scopes, is_withends};
ghost use Rattle.text_types.specs.Answer.{declared_number};
ghost use Rattle.text_types.specs.Found.{found_in};
ghost use Rattle.text_scopes.specs.OpenCode.{BodyAt, Opened};

use text_tokens::kinds::OPEN_BRACE;
use text_types::found::DeclaredAs;
use text_types::lookup::declared_in;
use text_types::parameters::parameters;
use text_types::place::expect;

// The place at which the declarations of block k begin.
fn start_of(starts: &[usize; 32], k: usize) -> usize
    ensures { k < 32 → result ≡ get_or starts.now k 0 }
{
    if k < 32 {
        return starts[k];
    }
    0
}

// What a method's parameters, which begin here, and the declarations of its body say of a name. "Of two declarations in
// one block the first stands": the parameters come first.
fn body_says(text: &[u8], from: usize, start: usize, end: usize) -> Option<DeclaredAs>
    ensures { (ds : List Declared) → BodyAt text.now from ds
        → declared_number result ≡ found_in (slice start end text.now) ds }
{
    let Ok(p) = parameters(text, from, start, end) else {
        return None;
    };
    let Ok(brace) = expect(text, p.at, OPEN_BRACE) else {
        return None;
    };
    p.found.or(declared_in(text, brace, start, end))
}

// The name stands at start up to end; n blocks are open, and `starts` has the places at which their declarations begin
// (the outermost one's parameters), the outermost first.
pub fn is_withends(text: &[u8], starts: &[usize; 32], n: usize, start: usize, end: usize) -> bool
    ensures { (scopes : Scopes) (x : Name) → Opened text.now starts.now n scopes → n ≤ 32
        → x.spelling ≡ slice start end text.now → result ≡ is_withends scopes x }
{
    let mut blocks = n;
    while 1 < blocks {
        blocks -= 1;
        match declared_in(text, start_of(starts, blocks), start, end) {
            Some(DeclaredAs::WithEnds) => return true,
            Some(DeclaredAs::Variable) => return false,
            None => {}
        }
    }
    match body_says(text, start_of(starts, 0), start, end) {
        Some(DeclaredAs::WithEnds) => true,
        Some(DeclaredAs::Variable) => false,
        None => false,
    }
}
