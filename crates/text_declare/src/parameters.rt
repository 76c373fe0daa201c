// The parameters of a method.
ghost use Rattle.std.specs.Prelude.{is_ok};
ghost use Rattle.text_declare.specs.Entered.{tables};
ghost use Rattle.text_declare.specs.EntryAnswer.{entered_place, tables_after};
ghost use Rattle.text_declare.specs.EnterCode.{ParameterEnters, RestEnters, ParametersEnter};

use crate::entry::{EnteredAt, EntryError, enter_name};
use text_tokens::kinds::{CLOSE, COMMA};
use text_types::place::expect;
use text_types::types::non_void_type;

// "methodDeclParam ::= nonVoidType paramName"
fn parameter(
    text: &[u8],
    from: usize,
    scope: &mut [usize; 64],
    row: &mut [u16; 18],
    n: usize,
    used: usize,
) -> Result<EnteredAt, EntryError>
    ensures { ParameterEnters text.now from (tables scope.old n row.old used) (is_ok result)
        (entered_place result) (tables_after scope.new row.new result) }
{
    let t = non_void_type(text, from)?;
    enter_name(text, t.at, scope, row, n, used, t.code)
}

// "(, methodDeclParam)*" after a parameter, and the closing bracket.
fn more_parameters(
    text: &[u8],
    from: usize,
    scope: &mut [usize; 64],
    row: &mut [u16; 18],
    n: usize,
    used: usize,
) -> Result<EnteredAt, EntryError>
    ensures { RestEnters text.now from (tables scope.old n row.old used) (is_ok result)
        (entered_place result) (tables_after scope.new row.new result) }
{
    let mut p = EnteredAt { at: from, n, used };
    while let Ok(comma) = expect(text, p.at, COMMA) {
        p = parameter(text, comma, scope, row, p.n, p.used)?;
    }
    let at = expect(text, p.at, CLOSE)?;
    Ok(EnteredAt { at, ..p })
}

// "methodDeclParamList?" and the closing bracket, after the opening one.
pub fn parameters(
    text: &[u8],
    from: usize,
    scope: &mut [usize; 64],
    row: &mut [u16; 18],
    n: usize,
    used: usize,
) -> Result<EnteredAt, EntryError>
    ensures { ParametersEnter text.now from (tables scope.old n row.old used) (is_ok result)
        (entered_place result) (tables_after scope.new row.new result) }
{
    if let Ok(at) = expect(text, from, CLOSE) {
        return Ok(EnteredAt { at, n, used });
    }
    let p = parameter(text, from, scope, row, n, used)?;
    more_parameters(text, p.at, scope, row, p.n, p.used)
}
