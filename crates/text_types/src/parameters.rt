// Parameters, and whether a name is one of them.
ghost use Rattle.std.specs.Prelude.{is_ok};
ghost use Rattle.std.proofs.Math.Seq.{slice};
ghost use Rattle.text_types.specs.Answer.{found_place, found_of};
ghost use Rattle.text_types.specs.FoundCode.{ParameterSays, RestSays, ParametersSay};

use crate::found::{FoundAt, name_here};
use crate::place::{GrammarError, expect};
use crate::types::non_void_type;
use text_tokens::kinds::{CLOSE, COMMA};

// "methodDeclParam ::= nonVoidType paramName"
pub fn parameter(
    text: &[u8],
    from: usize,
    start: usize,
    end: usize,
) -> Result<FoundAt, GrammarError>
    ensures { ParameterSays text.now (slice start end text.now) from (is_ok result) (found_place result)
        (found_of result) }
{
    let t = non_void_type(text, from)?;
    Ok(name_here(text, t.at, start, end)?)
}

// "(, methodDeclParam)*" after a parameter, and the closing bracket.
fn more_parameters(
    text: &[u8],
    from: usize,
    start: usize,
    end: usize,
) -> Result<FoundAt, GrammarError>
    ensures { RestSays text.now (slice start end text.now) from (is_ok result) (found_place result)
        (found_of result) }
{
    let mut at = from;
    let mut found = None;
    while let Ok(comma) = expect(text, at, COMMA) {
        let p = parameter(text, comma, start, end)?;
        found = found.or(p.found);
        at = p.at;
    }
    let last = expect(text, at, CLOSE)?;
    Ok(FoundAt { at: last, found })
}

// "methodDeclParamList?" and the closing bracket, after the opening one.
pub fn parameters(
    text: &[u8],
    from: usize,
    start: usize,
    end: usize,
) -> Result<FoundAt, GrammarError>
    ensures { ParametersSay text.now (slice start end text.now) from (is_ok result) (found_place result)
        (found_of result) }
{
    if let Ok(at) = expect(text, from, CLOSE) {
        return Ok(FoundAt { at, found: None });
    }
    let p = parameter(text, from, start, end)?;
    let more = more_parameters(text, p.at, start, end)?;
    let found = p.found.or(more.found);
    Ok(FoundAt { at: more.at, found })
}
