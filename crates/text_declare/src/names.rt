// The names of a declaration after its first.
ghost use Rattle.std.specs.Prelude.{◌≤◌, ◌+◌, ◌≡◌, is_ok};
ghost use Rattle.text_declare.specs.Entered.{tables};
ghost use Rattle.text_declare.specs.EntryAnswer.{entered_place, tables_after};
ghost use Rattle.text_declare.specs.EnterCode.{NamesEnter, ThreeEnter, EndsEnter};

use crate::entry::{EnteredAt, EntryError, NameAt, enter, enter_name, name_here};
use text_tokens::kinds::{CLOSE_BRACKET, COMMA, OPEN_BRACKET, SEMICOLON};
use text_types::place::expect;

// "variableName (, variableName)*", after the first name, then ;
pub fn more_names(
    text: &[u8],
    from: usize,
    scope: &mut [usize; 64],
    row: &mut [u16; 18],
    n: usize,
    used: usize,
    code: u8,
) -> Result<EnteredAt, EntryError>
    ensures { NamesEnter text.now from code (tables scope.old n row.old used) (is_ok result)
        (entered_place result) (tables_after scope.new row.new result) }
{
    let mut e = EnteredAt { at: from, n, used };
    while let Ok(comma) = expect(text, e.at, COMMA) {
        e = enter_name(text, comma, scope, row, e.n, e.used, code)?;
    }
    let at = expect(text, e.at, SEMICOLON)?;
    Ok(EnteredAt { at, ..e })
}

// The code of the ends of a channel, from that of the channel.
fn end_code(code: u8) -> u8
    ensures { code ≤ 31 → result ≡ code + 16 }
{
    if 31 < code { 0 } else { code + 16 }
}

// A channel with ends, end 0 and end 1, in three slots.
fn enter_three(
    scope: &mut [usize; 64],
    row: &mut [u16; 18],
    n: usize,
    used: usize,
    channel: NameAt,
    zero: NameAt,
    one: NameAt,
    code: u8,
) -> Result<EnteredAt, EntryError>
    ensures { ThreeEnter channel.start channel.at zero.start zero.at one.start one.at code
        (tables scope.old n row.old used) (is_ok result)
        (tables_after scope.new row.new result) }
{
    let c = enter(scope, row, n, used, channel, 1, code)?;
    let end = end_code(code);
    let a = enter(scope, row, c.n, c.used, zero, 0, end)?;
    enter(scope, row, a.n, a.used, one, 0, end)
}

// "withends [ variableName , variableName ]", after withends, then ;
pub fn end_names(
    text: &[u8],
    from: usize,
    scope: &mut [usize; 64],
    row: &mut [u16; 18],
    n: usize,
    used: usize,
    channel: NameAt,
    code: u8,
) -> Result<EnteredAt, EntryError>
    ensures { EndsEnter text.now from channel.start channel.at code
        (tables scope.old n row.old used) (is_ok result)
        (entered_place result) (tables_after scope.new row.new result) }
{
    let opening = expect(text, from, OPEN_BRACKET)?;
    let zero = name_here(text, opening)?;
    let comma = expect(text, zero.at, COMMA)?;
    let one = name_here(text, comma)?;
    let closing = expect(text, one.at, CLOSE_BRACKET)?;
    let at = expect(text, closing, SEMICOLON)?;
    let three = enter_three(scope, row, n, used, channel, zero, one, code)?;
    Ok(EnteredAt { at, ..three })
}
