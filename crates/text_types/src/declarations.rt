// Declarations, and what they declare of a name.
ghost use Rattle.std.specs.Prelude.{◌≡◌, ◌&&◌, ltb, is_ok};
ghost use Rattle.std.proofs.Math.Seq.{slice};
ghost use Rattle.text_types.specs.Answer.{declared_number, found_place, found_of};
ghost use Rattle.text_types.specs.FoundCode.{VariablesSay, DeclarationSays, DeclarationsSay, is_channel};

use crate::found::{DeclaredAs, FoundAt, name_here};
use crate::names::{end_names, more_names};
use crate::place::{GrammarError, expect, next_kind};
use crate::types::{non_void_type, starts_type};
use text_tokens::kinds::WITHENDS;

// The code of a channel.
pub fn is_channel(code: u8) -> bool
    ensures { result ≡ is_channel code }
{
    (16 < code) & (code < 32)
}

// After the first name of a declaration: `first` is what is found by it.
fn after_name(
    text: &[u8],
    from: usize,
    start: usize,
    end: usize,
    code: u8,
    first: Option<DeclaredAs>,
) -> Result<FoundAt, GrammarError>
    ensures { VariablesSay text.now (slice start end text.now) from code (declared_number first) (is_ok result)
        (found_place result) (found_of result) }
{
    match expect(text, from, WITHENDS) {
        Ok(w) if is_channel(code) => {
            let ends = end_names(text, w, start, end)?;
            let found = first.and(Some(DeclaredAs::WithEnds)).or(ends.found);
            Ok(FoundAt { at: ends.at, found })
        }
        _ => {
            let more = more_names(text, from, start, end)?;
            let found = first.or(more.found);
            Ok(FoundAt { at: more.at, found })
        }
    }
}

// "oneVarDecl ;"
pub fn declaration(
    text: &[u8],
    from: usize,
    start: usize,
    end: usize,
) -> Result<FoundAt, GrammarError>
    ensures { DeclarationSays text.now (slice start end text.now) from (is_ok result)
        (found_place result) (found_of result) }
{
    let t = non_void_type(text, from)?;
    let name = name_here(text, t.at, start, end)?;
    after_name(text, name.at, start, end, t.code, name.found)
}

// "varDeclaration ::= (oneVarDecl ;)*", up to the first token that starts no type.
pub fn declarations(
    text: &[u8],
    from: usize,
    start: usize,
    end: usize,
) -> Result<FoundAt, GrammarError>
    ensures { DeclarationsSay text.now (slice start end text.now) from (is_ok result)
        (found_place result) (found_of result) }
{
    let mut at = from;
    let mut found = None;
    while starts_type(next_kind(text, at)) {
        let d = declaration(text, at, start, end)?;
        found = found.or(d.found);
        at = d.at;
    }
    Ok(FoundAt { at, found })
}
