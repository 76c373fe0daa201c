// Where the next token starts, and where a word and a number end.
ghost use Rattle.std.specs.Prelude.{◌≡◌};
ghost use Rattle.text_parse.specs.Tokens.{is_digit};
ghost use Rattle.text_tokens.specs.PlacesCode.{passed, is_word_byte, start_at};

use crate::bytes::{is_digit, is_letter, is_white};

// The first byte from a place on that is no white space, or the text's end.
pub fn token_start(text: &[u8], from: usize) -> usize
    ensures { result ≡ start_at text.now from }
{
    let mut i = from;
    while i < text.len() {
        if !is_white(text[i]) {
            return i;
        }
        i += 1;
    }
    i
}

// The first byte from a place on that is no letter and no digit, or the text's end.
pub fn word_end(text: &[u8], from: usize) -> usize
    ensures { result ≡ passed is_word_byte text.now from }
{
    let mut i = from;
    while i < text.len() {
        let b = text[i];
        if !(is_letter(b) | is_digit(b)) {
            return i;
        }
        i += 1;
    }
    i
}

// The first byte from a place on that is no digit, or the text's end.
pub fn number_end(text: &[u8], from: usize) -> usize
    ensures { result ≡ passed is_digit text.now from }
{
    let mut i = from;
    while i < text.len() {
        if !is_digit(text[i]) {
            return i;
        }
        i += 1;
    }
    i
}
