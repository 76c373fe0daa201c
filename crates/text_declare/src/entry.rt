// One variable more in scope, and its type in the method's row.
ghost use Rattle.std.specs.Prelude.{◌≡◌, is_ok};
ghost use Rattle.text_declare.specs.Entered.{tables};
ghost use Rattle.text_declare.specs.EntryAnswer.{name_start, name_end, entered_place, tables_after};
ghost use Rattle.text_declare.specs.EnterCode.{NameStands, VariableEnters, NameEnters};

use text_tokens::kinds::NAME;
use text_tokens::next::next_token;
use text_types::place::GrammarError;

// What is declared is not entered: the text leaves the grammar, or the method needs more than 16 slots.
#[derive(Clone, Copy, Debug, PartialEq, Eq)]
pub enum EntryError {
    Grammar(GrammarError),
    // the method needs more than 16 slots, at the name that ends here
    Full(usize),
}

impl From<GrammarError> for EntryError {
    fn from(e: GrammarError) -> EntryError {
        EntryError::Grammar(e)
    }
}

// A name stands from start up to at.
#[derive(Clone, Copy, Debug, PartialEq, Eq)]
pub struct NameAt {
    pub start: usize,
    pub at: usize,
}

// The text is read up to this place and what it declares is entered: n variables are in scope, and so many slots are
// given out.
#[derive(Clone, Copy, Debug, PartialEq, Eq)]
pub struct EnteredAt {
    pub at: usize,
    pub n: usize,
    pub used: usize,
}

// A name must stand here.
pub fn name_here(text: &[u8], from: usize) -> Result<NameAt, GrammarError>
    ensures { NameStands text.now from (is_ok result) (name_start result) (name_end result) }
{
    let t = next_token(text, from);
    if t.kind == NAME {
        Ok(NameAt {
            start: t.start,
            at: t.end,
        })
    } else {
        Err(GrammarError { at: t.start })
    }
}

// The variable of this name in the next slot: `flag` is 1 if it is a channel with ends, `code` its type's code.
pub fn enter(
    scope: &mut [usize; 64],
    row: &mut [u16; 18],
    n: usize,
    used: usize,
    name: NameAt,
    flag: usize,
    code: u8,
) -> Result<EnteredAt, EntryError>
    ensures { (entered_place result ≡ name.at) × VariableEnters name.start name.at flag code
        (tables scope.old n row.old used) (is_ok result) (tables_after scope.new row.new result) }
{
    if 15 < n {
        return Err(EntryError::Full(name.at));
    }
    if 15 < used {
        return Err(EntryError::Full(name.at));
    }
    scope[4 * n] = name.start;
    scope[4 * n + 1] = name.at;
    scope[4 * n + 2] = flag;
    scope[4 * n + 3] = used;
    row[2 + used] = code as u16;
    Ok(EnteredAt {
        at: name.at,
        n: n + 1,
        used: used + 1,
    })
}

// A name must stand here; it is that of a variable of the type of this code.
pub fn enter_name(
    text: &[u8],
    from: usize,
    scope: &mut [usize; 64],
    row: &mut [u16; 18],
    n: usize,
    used: usize,
    code: u8,
) -> Result<EnteredAt, EntryError>
    ensures { NameEnters text.now from code (tables scope.old n row.old used) (is_ok result)
        (entered_place result) (tables_after scope.new row.new result) }
{
    let name = name_here(text, from)?;
    enter(scope, row, n, used, name, 0, code)
}
