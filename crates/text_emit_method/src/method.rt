// A method: its header, its body, its end.
ghost use Rattle.std.specs.Prelude.{◌≤◌, ◌≡◌, List, length};
ghost use Rattle.text.specs.Tree.{Program, main_first};
ghost use Rattle.text_parse.specs.Tokens.{Token, tokens_of};
ghost use Rattle.text_parse.specs.Grammar.{read, program_of};
ghost use Rattle.text_parse.specs.Equations.{method_from};
ghost use Rattle.text_tokens.specs.Places.{tokens_at};
ghost use Rattle.text_methods.specs.IndexCode.{Indexed};
ghost use Rattle.text_emit_method.specs.MethodCode.{MethodEmits};

use crate::body::body;
use crate::close::close;
use crate::header::header;

// Where ok, the method is read up to this place; else it does not fit. Its name stands at start up to end, and its code
// is so many instructions long.
#[derive(Drop)]
pub struct MethodAt {
    pub ok: bool,
    pub at: usize,
    pub start: usize,
    pub end: usize,
    pub long: usize,
}

// The method that begins at this place.
pub fn emit_method(
    text: &[u8],
    methods: &[usize],
    at: usize,
    row: &mut [u16; 18],
    scope: &mut [usize; 64],
    pending: &mut [usize],
    code: &mut [usize],
) -> MethodAt
    requires { Indexed text.now methods.now }
    ensures { (ns : Program) (us : List Token) → program_of (tokens_of text.now) ≡ read ns us
        → 12288 ≤ length pending.old → 8192 ≤ length code.old
        → length scope.old ≡ 64 → length row.old ≡ 18
        → MethodEmits text.now (main_first ns) at result.ok result.at result.start result.end result.long
        row.new code.old code.new (method_from (tokens_at text.now at)) }
{
    let h = header(text, at, scope, row);
    let refused = MethodAt {
        ok: false,
        at: h.at,
        start: h.start,
        end: h.end,
        long: 0,
    };
    if !h.ok {
        return refused;
    }
    let Some(b) = body(text, methods, h.at, h.n, row, scope, pending, code) else {
        return refused;
    };
    let Some(e) = close(row, code, b, h.code) else {
        return refused;
    };
    MethodAt {
        ok: true,
        at: e.at,
        start: h.start,
        end: h.end,
        long: e.count,
    }
}
