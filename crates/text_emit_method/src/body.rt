// "{ varDeclaration code* }" of a method: no CLEAR, and its block is the first level of nesting.
ghost use Rattle.std.specs.Prelude.{◌≤◌, length};
ghost use Rattle.text_methods.specs.IndexCode.{Indexed};
ghost use Rattle.text_emit.specs.Reached.{reached};
ghost use Rattle.text_emit_method.specs.StepsCode.{BodyTranslates};

use text_declare::declarations::declarations;
use text_emit::emit::Emit;
use text_emit_block::code::statements;
use text_tokens::next::next_token;

// The n parameters have the first slots. Nothing is written where `pending` is too short for what waits.
pub fn body(
    text: &[u8],
    methods: &[usize],
    from: usize,
    n: usize,
    row: &mut [u16; 18],
    scope: &mut [usize; 64],
    pending: &mut [usize],
    code: &mut [usize],
) -> Option<Emit>
    requires { Indexed text.now methods.now }
    ensures { 12288 ≤ length pending.old
        → BodyTranslates text.now from n scope.old row.old code.old (reached result)
        scope.new row.new code.new }
{
    if pending.len() < 12288 {
        return None;
    }
    let open = next_token(text, from);
    let Ok(d) = declarations(text, open.end, scope, row, n, n) else {
        return None;
    };
    let begin = Emit {
        at: d.at,
        used: d.used,
        count: 0,
    };
    statements(text, methods, begin, scope, d.n, row, pending, code, 31)
}
