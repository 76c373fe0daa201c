// The declarations of a block.
ghost use Rattle.std.specs.Prelude.{is_ok};
ghost use Rattle.text_declare.specs.Entered.{tables};
ghost use Rattle.text_declare.specs.EntryAnswer.{entered_place, tables_after};
ghost use Rattle.text_declare.specs.EnterCode.{VariablesEnter, DeclarationEnters, DeclarationsEnter};

use crate::entry::{EnteredAt, EntryError, NameAt, enter, name_here};
use crate::names::{end_names, more_names};
use text_tokens::kinds::WITHENDS;
use text_types::declarations::is_channel;
use text_types::place::{expect, next_kind};
use text_types::types::{non_void_type, starts_type};

// After the first name of a declaration, which is not entered yet.
fn after_name(
    text: &[u8],
    from: usize,
    scope: &mut [usize; 64],
    row: &mut [u16; 18],
    n: usize,
    used: usize,
    name: NameAt,
    code: u8,
) -> Result<EnteredAt, EntryError>
    ensures { VariablesEnter text.now from name.start name.at code
        (tables scope.old n row.old used) (is_ok result)
        (entered_place result) (tables_after scope.new row.new result) }
{
    match expect(text, from, WITHENDS) {
        Ok(w) if is_channel(code) => end_names(text, w, scope, row, n, used, name, code),
        _ => {
            let first = enter(scope, row, n, used, name, 0, code)?;
            more_names(text, from, scope, row, first.n, first.used, code)
        }
    }
}

// "oneVarDecl ;"
fn declaration(
    text: &[u8],
    from: usize,
    scope: &mut [usize; 64],
    row: &mut [u16; 18],
    n: usize,
    used: usize,
) -> Result<EnteredAt, EntryError>
    ensures { DeclarationEnters text.now from (tables scope.old n row.old used) (is_ok result)
        (entered_place result) (tables_after scope.new row.new result) }
{
    let t = non_void_type(text, from)?;
    let name = name_here(text, t.at)?;
    after_name(text, name.at, scope, row, n, used, name, t.code)
}

// "varDeclaration ::= (oneVarDecl ;)*", up to the first token that starts no type.
pub fn declarations(
    text: &[u8],
    from: usize,
    scope: &mut [usize; 64],
    row: &mut [u16; 18],
    n: usize,
    used: usize,
) -> Result<EnteredAt, EntryError>
    ensures { DeclarationsEnter text.now from (tables scope.old n row.old used) (is_ok result)
        (entered_place result) (tables_after scope.new row.new result) }
{
    let mut d = EnteredAt { at: from, n, used };
    while starts_type(next_kind(text, d.at)) {
        d = declaration(text, d.at, scope, row, d.n, d.used)?;
    }
    Ok(d)
}
