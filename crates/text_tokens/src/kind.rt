// What kind of token a word or a mark is.
ghost use Rattle.std.specs.Prelude.{◌≡◌, [], ◌∷◌};
ghost use Rattle.std.proofs.Math.Seq.{slice};
ghost use Rattle.text_parse.specs.Tokens.{is};
ghost use Rattle.text_tokens.specs.Places.{token_of};
ghost use Rattle.text_tokens.specs.KindsCode.{word_of_length, word_kind, mark_kind};

use crate::bytes::{is_word, size};
use crate::kinds::{
    ALIASFOR, ASSIGN, BAD, BOOLEAN, CHANNEL, CHANNEL_END, CLOSE, CLOSE_BRACE, CLOSE_BRACKET, COMMA,
    ELSE, FALSE, FORK, IF, INT, LESS, MEASURE, MINUS, NAME, NEW, OPEN, OPEN_BRACE, OPEN_BRACKET,
    PLUS, QBIT, RECV, RETURN, SEMICOLON, SEND, TRUE, VOID, WHILE, WITHENDS,
};

fn word_of_two(text: &[u8], start: usize, end: usize) -> u8
    ensures { result ≡ word_of_length 2 (slice start end text.now) }
{
    if is_word(text, start, end, b"if") {
        return IF;
    }
    NAME
}

fn word_of_three(text: &[u8], start: usize, end: usize) -> u8
    ensures { result ≡ word_of_length 3 (slice start end text.now) }
{
    if is_word(text, start, end, b"int") {
        return INT;
    }
    if is_word(text, start, end, b"new") {
        return NEW;
    }
    NAME
}

fn word_of_four(text: &[u8], start: usize, end: usize) -> u8
    ensures { result ≡ word_of_length 4 (slice start end text.now) }
{
    if is_word(text, start, end, b"void") {
        return VOID;
    }
    if is_word(text, start, end, b"qbit") {
        return QBIT;
    }
    if is_word(text, start, end, b"fork") {
        return FORK;
    }
    if is_word(text, start, end, b"else") {
        return ELSE;
    }
    if is_word(text, start, end, b"recv") {
        return RECV;
    }
    if is_word(text, start, end, b"send") {
        return SEND;
    }
    if is_word(text, start, end, b"true") {
        return TRUE;
    }
    NAME
}

fn word_of_five(text: &[u8], start: usize, end: usize) -> u8
    ensures { result ≡ word_of_length 5 (slice start end text.now) }
{
    if is_word(text, start, end, b"while") {
        return WHILE;
    }
    if is_word(text, start, end, b"false") {
        return FALSE;
    }
    NAME
}

fn word_of_six(text: &[u8], start: usize, end: usize) -> u8
    ensures { result ≡ word_of_length 6 (slice start end text.now) }
{
    if is_word(text, start, end, b"return") {
        return RETURN;
    }
    NAME
}

fn word_of_seven(text: &[u8], start: usize, end: usize) -> u8
    ensures { result ≡ word_of_length 7 (slice start end text.now) }
{
    if is_word(text, start, end, b"boolean") {
        return BOOLEAN;
    }
    if is_word(text, start, end, b"channel") {
        return CHANNEL;
    }
    if is_word(text, start, end, b"measure") {
        return MEASURE;
    }
    NAME
}

fn word_of_eight(text: &[u8], start: usize, end: usize) -> u8
    ensures { result ≡ word_of_length 8 (slice start end text.now) }
{
    if is_word(text, start, end, b"withends") {
        return WITHENDS;
    }
    if is_word(text, start, end, b"aliasfor") {
        return ALIASFOR;
    }
    NAME
}

fn word_of_ten(text: &[u8], start: usize, end: usize) -> u8
    ensures { result ≡ word_of_length 10 (slice start end text.now) }
{
    if is_word(text, start, end, b"channelEnd") {
        return CHANNEL_END;
    }
    NAME
}

// A part that starts with a letter: the reserved word that it is, or a name.
pub fn word_kind(text: &[u8], start: usize, end: usize) -> u8
    ensures { result ≡ word_kind (slice start end text.now) }
{
    match size(text, start, end) {
        2 => word_of_two(text, start, end),
        3 => word_of_three(text, start, end),
        4 => word_of_four(text, start, end),
        5 => word_of_five(text, start, end),
        6 => word_of_six(text, start, end),
        7 => word_of_seven(text, start, end),
        8 => word_of_eight(text, start, end),
        10 => word_of_ten(text, start, end),
        _ => NAME,
    }
}

// A part of one byte that is no letter and no digit.
pub fn mark_of_one(b: u8) -> u8
    ensures { result ≡ mark_kind (b ∷ []) }
{
    match b {
        40 => OPEN,
        41 => CLOSE,
        123 => OPEN_BRACE,
        125 => CLOSE_BRACE,
        91 => OPEN_BRACKET,
        93 => CLOSE_BRACKET,
        44 => COMMA,
        59 => SEMICOLON,
        43 => PLUS,
        45 => MINUS,
        61 => ASSIGN,
        60 => LESS,
        _ => BAD,
    }
}

// "measure takes StdBasis": a name, which is not reserved.
pub fn is_std_basis(text: &[u8], start: usize, end: usize) -> bool
    ensures { result ≡ is "StdBasis" (token_of text.now start end) }
{
    is_word(text, start, end, b"StdBasis")
}
