// The types of a method's parameters, noted in a row: word 1 counts them, and the first 16 stand from word 2 on.
ghost use Rattle.std.specs.Prelude.{◌≡◌, is_ok};
ghost use Rattle.text_types.specs.Answer.{type_place, type_code_in};
ghost use Rattle.text_rows.specs.NotedCode.{noted, ParameterType, RestNotes, ParametersNote};

use text_tokens::kinds::{CLOSE, COMMA, NAME};
use text_types::place::{GrammarError, expect};
use text_types::types::{TypeAt, non_void_type};

// "methodDeclParam ::= nonVoidType paramName"
fn parameter_type(text: &[u8], from: usize) -> Result<TypeAt, GrammarError>
    ensures { ParameterType text.now from (is_ok result) (type_place result) (type_code_in result) }
{
    let t = non_void_type(text, from)?;
    let at = expect(text, t.at, NAME)?;
    Ok(TypeAt { at, ..t })
}

// One parameter more.
fn note(row: &mut [u16; 18], code: u8)
    ensures { row.new ≡ noted code row.old }
{
    let n = row[1];
    if 65534 < n {
        return;
    }
    row[1] = n + 1;
    if 15 < n {
        return;
    }
    row[2 + n as usize] = code as u16;
}

// "(, methodDeclParam)*" after a parameter.
fn more_types(text: &[u8], from: usize, row: &mut [u16; 18])
    ensures { RestNotes text.now from row.old row.new }
{
    let mut at = from;
    while let Ok(comma) = expect(text, at, COMMA) {
        let Ok(p) = parameter_type(text, comma) else {
            return;
        };
        note(row, p.code);
        at = p.at;
    }
}

// "methodDeclParamList?", after the opening bracket.
pub fn parameter_types(text: &[u8], from: usize, row: &mut [u16; 18])
    ensures { ParametersNote text.now from row.old row.new }
{
    if let Ok(_) = expect(text, from, CLOSE) {
        return;
    }
    let Ok(p) = parameter_type(text, from) else {
        return;
    };
    note(row, p.code);
    more_types(text, p.at, row);
}
