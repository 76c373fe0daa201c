// The next token of a text.
ghost use Rattle.std.specs.Prelude.{◌≡◌};
ghost use Rattle.text_tokens.specs.PlacesCode.{end_at};
ghost use Rattle.text_tokens.specs.NextCode.{NextToken, placed};

use crate::bytes::{byte_at, is_digit, is_letter};
use crate::ends::{number_end, token_start, word_end};
use crate::kind::{mark_of_one, word_kind};
use crate::kinds::{END, EQUALS, NUMBER};

// A token by its places and its kind: its bytes stand from start up to end.
#[derive(Clone, Copy)]
pub struct TokenAt {
    pub start: usize,
    pub end: usize,
    pub kind: u8,
}

fn token(start: usize, end: usize, kind: u8) -> TokenAt
    ensures { result ≡ record { start = start; end = end; kind = kind } }
{
    TokenAt {
        start: start,
        end: end,
        kind: kind,
    }
}

// The token that starts at a place. Its first byte is looked at once, for its end and for its kind.
fn token_from(text: &[u8], start: usize) -> TokenAt
    ensures { result ≡ placed text.now start (end_at text.now start) }
{
    if text.len() <= start {
        return token(start, start, END);
    }
    let b = text[start];
    if is_letter(b) {
        let end = word_end(text, start + 1);
        return token(start, end, word_kind(text, start, end));
    }
    if is_digit(b) {
        return token(start, number_end(text, start + 1), NUMBER);
    }
    if (b == 61) & (byte_at(text, start + 1) == 61) {
        return token(start, start + 2, EQUALS);
    }
    token(start, start + 1, mark_of_one(b))
}

// The first token from a place on. At the text's end it is the token without bytes, which is the last.
pub fn next_token(text: &[u8], from: usize) -> TokenAt
    ensures { NextToken text.now from result }
{
    token_from(text, token_start(text, from))
}
