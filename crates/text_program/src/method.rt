// A method of a LanQ text.
ghost use Rattle.std.specs.Prelude.{suc, is_ok};
ghost use Rattle.text_parse.specs.Equations.{method_from};
ghost use Rattle.text_tokens.specs.Places.{tokens_at};
ghost use Rattle.text_types.specs.Answer.{place_at};
ghost use Rattle.text_statements.specs.WithinCode.{Reads};
ghost use Rattle.text_program.specs.MethodCode.{HeaderEnd};

use text_statements::code::statements;
use text_statements::opening::{past_declarations, with_block};
use text_tokens::kinds::{NAME, OPEN, OPEN_BRACE};
use text_types::parameters::parameters;
use text_types::place::{GrammarError, expect};
use text_types::types::return_type;

// "methodHeader ::= type methodName ( methodDeclParamList? )", up to the opening bracket
fn header(text: &[u8], from: usize) -> Result<usize, GrammarError>
    ensures { HeaderEnd text.now from (is_ok result) (place_at result) }
{
    let t = return_type(text, from)?;
    let name = expect(text, t.at, NAME)?;
    expect(text, name, OPEN)
}

// "method ::= methodHeader block": the body has depth 1, so 31 levels are left within it. No name is looked for among
// the parameters.
pub fn method(text: &[u8], from: usize) -> Result<usize, GrammarError>
    ensures { Reads text.now (suc from) (is_ok result) (place_at result)
        (method_from (tokens_at text.now from)) }
{
    let first = header(text, from)?;
    let list = parameters(text, first, 0, 0)?;
    let brace = expect(text, list.at, OPEN_BRACE)?;
    let d = past_declarations(text, brace)?;
    let starts = with_block([0; 32], 0, first);
    statements(text, d, &starts, 1, 31)
}
