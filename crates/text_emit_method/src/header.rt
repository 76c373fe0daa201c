// "methodHeader ::= type methodName ( methodDeclParamList? )"
ghost use Rattle.std.specs.Prelude.{◌≤◌, ◌≡◌};
ghost use Rattle.text_emit_method.specs.StepsCode.{HeaderEnters};

use text_declare::parameters::parameters;
use text_tokens::next::next_token;
use text_types::types::return_type;

// Where ok, the header is read up to this place and its n parameters are entered; else the text leaves the grammar or
// there are too many of them. The name stands at start up to end, and the code is that of the return type.
#[derive(Drop)]
pub struct HeaderAt {
    pub ok: bool,
    pub at: usize,
    pub start: usize,
    pub end: usize,
    pub code: u8,
    pub n: usize,
}

// A count of slots is a word of a table.
fn as_word(n: usize) -> u16
    ensures { n ≤ 16 → result ≡ n }
{
    if 16 < n {
        return 0;
    }
    n as u16
}

// The row begins with the return type and the number of parameters; their types follow.
pub fn header(text: &[u8], from: usize, scope: &mut [usize; 64], row: &mut [u16; 18]) -> HeaderAt
    ensures { HeaderEnters text.now from scope.old result.ok result.at result.start result.end result.code result.n
        scope.new row.new }
{
    let Ok(t) = return_type(text, from) else {
        return HeaderAt {
            ok: false,
            at: from,
            start: from,
            end: from,
            code: 0,
            n: 0,
        };
    };
    let name = next_token(text, t.at);
    let open = next_token(text, name.end);
    let mut fresh = [0u16; 18];
    fresh[0] = t.code as u16;
    *row = fresh;
    match parameters(text, open.end, scope, row, 0, 0) {
        Ok(p) => {
            row[1] = as_word(p.n);
            HeaderAt {
                ok: true,
                at: p.at,
                start: name.start,
                end: name.end,
                code: t.code,
                n: p.n,
            }
        }
        Err(_) => HeaderAt {
            ok: false,
            at: open.end,
            start: name.start,
            end: name.end,
            code: t.code,
            n: 0,
        },
    }
}
