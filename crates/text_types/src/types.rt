// The types of a text, with the codes that a table has for them (0 is void).
ghost use Rattle.std.specs.Prelude.{◌≡◌, ◌||◌, suc, ◌+◌, ◌≤◌, eqb};
ghost use Rattle.text_parse.specs.Grammar.{carried, bracketed, non_void_type, return_type};
ghost use Rattle.text_tokens.specs.Places.{tokens_at};
ghost use Rattle.text_types.specs.SaysCode.{CarriedSays, TypeSays, ReturnSays, is_plain, starts_kind};

use crate::place::{GrammarError, expect};
use text_tokens::kinds::{
    BOOLEAN, CHANNEL, CHANNEL_END, CLOSE_BRACKET, INT, OPEN_BRACKET, QBIT, VOID,
};
use text_tokens::next::next_token;

// A place, and the code of the type that is read up to it.
#[derive(Clone, Copy, Debug, PartialEq, Eq)]
pub struct TypeAt {
    pub code: u8,
    pub at: usize,
}

// int, boolean and qbit: their kinds as tokens are their codes as types.
fn is_plain(kind: u8) -> bool
    ensures { result ≡ is_plain kind }
{
    (kind == INT) | ((kind == BOOLEAN) | (kind == QBIT))
}

// A token of this kind starts a type.
pub fn starts_type(kind: u8) -> bool
    ensures { result ≡ starts_kind kind }
{
    (kind == INT)
        | ((kind == BOOLEAN) | ((kind == QBIT) | ((kind == CHANNEL) | (kind == CHANNEL_END))))
}

// The type inside channel[..] and channelEnd[..].
pub fn carried(text: &[u8], from: usize) -> Result<TypeAt, GrammarError>
    ensures { CarriedSays text.now from result (carried (tokens_at text.now from)) }
{
    let t = next_token(text, from);
    if is_plain(t.kind) {
        Ok(TypeAt {
            code: t.kind,
            at: t.end,
        })
    } else {
        Err(GrammarError { at: t.start })
    }
}

// "[ T ]" after channel or channelEnd.
pub fn bracketed(text: &[u8], from: usize) -> Result<TypeAt, GrammarError>
    ensures { CarriedSays text.now from result (bracketed (tokens_at text.now from) (λ t. t)) }
{
    let open = expect(text, from, OPEN_BRACKET)?;
    let inner = carried(text, open)?;
    let at = expect(text, inner.at, CLOSE_BRACKET)?;
    Ok(TypeAt {
        code: inner.code,
        at,
    })
}

// A code of a channel or an end from that of what it carries.
fn above(base: u8, code: u8) -> u8
    ensures { base ≤ 32 → code ≤ 3 → result ≡ base + code }
{
    if (32 < base) | (3 < code) {
        0
    } else {
        base + code
    }
}

// "nonVoidType ::= int | boolean | qbit | channel [T] | channelEnd [T]"
pub fn non_void_type(text: &[u8], from: usize) -> Result<TypeAt, GrammarError>
    ensures { TypeSays text.now from result (non_void_type (tokens_at text.now from)) }
{
    let t = next_token(text, from);
    if t.kind == CHANNEL {
        let c = bracketed(text, t.end)?;
        return Ok(TypeAt {
            code: above(16, c.code),
            at: c.at,
        });
    }
    if t.kind == CHANNEL_END {
        let e = bracketed(text, t.end)?;
        return Ok(TypeAt {
            code: above(32, e.code),
            at: e.at,
        });
    }
    carried(text, from)
}

// "type ::= void | nonVoidType"
pub fn return_type(text: &[u8], from: usize) -> Result<TypeAt, GrammarError>
    ensures { ReturnSays text.now from result (return_type (tokens_at text.now from)) }
{
    let t = next_token(text, from);
    if t.kind == VOID {
        return Ok(TypeAt { code: 0, at: t.end });
    }
    non_void_type(text, from)
}
