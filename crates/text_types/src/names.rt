// The names of a declaration after its first.
ghost use Rattle.std.specs.Prelude.{is_ok};
ghost use Rattle.std.proofs.Math.Seq.{slice};
ghost use Rattle.text_types.specs.Answer.{found_place, found_of};
ghost use Rattle.text_types.specs.FoundCode.{NamesSay, EndsSay};

use crate::found::{FoundAt, name_here};
use crate::place::{GrammarError, expect};
use text_tokens::kinds::{CLOSE_BRACKET, COMMA, OPEN_BRACKET, SEMICOLON};

// "variableName (, variableName)*", after the first name, then ;
pub fn more_names(
    text: &[u8],
    from: usize,
    start: usize,
    end: usize,
) -> Result<FoundAt, GrammarError>
    ensures { NamesSay text.now (slice start end text.now) from (is_ok result) (found_place result)
        (found_of result) }
{
    let mut at = from;
    let mut found = None;
    while let Ok(comma) = expect(text, at, COMMA) {
        let name = name_here(text, comma, start, end)?;
        found = found.or(name.found);
        at = name.at;
    }
    let last = expect(text, at, SEMICOLON)?;
    Ok(FoundAt { at: last, found })
}

// "withends [ variableName , variableName ]", after withends, then ;
pub fn end_names(
    text: &[u8],
    from: usize,
    start: usize,
    end: usize,
) -> Result<FoundAt, GrammarError>
    ensures { EndsSay text.now (slice start end text.now) from (is_ok result) (found_place result)
        (found_of result) }
{
    let opening = expect(text, from, OPEN_BRACKET)?;
    let zero = name_here(text, opening, start, end)?;
    let comma = expect(text, zero.at, COMMA)?;
    let one = name_here(text, comma, start, end)?;
    let closing = expect(text, one.at, CLOSE_BRACKET)?;
    let at = expect(text, closing, SEMICOLON)?;
    let found = zero.found.or(one.found);
    Ok(FoundAt { at, found })
}
