// What a token does, known from what is open before it, by its kind and by the kind of the next one.
ghost use Rattle.std.specs.Prelude.{◌≡◌};
ghost use Rattle.text_scan.specs.ScanCode.{ends_part, mode_within, mode_after, name_role, brace_role, role};

use text_tokens::kinds::{CLOSE, CLOSE_BRACE, ELSE, MEASURE, NAME, OPEN, OPEN_BRACE, SEMICOLON};
use text_types::types::starts_type;

// A statement may begin after it.
fn ends_part(kind: u8) -> bool
    ensures { result ≡ ends_part kind }
{
    (kind == SEMICOLON) | ((kind == OPEN_BRACE) | ((kind == CLOSE) | (kind == ELSE)))
}

// Modes: 0 within a statement or a header, 1 where a statement or a declaration may begin, 2 after measure, 3 after
// measure and its bracket, 4 within a declaration.
fn mode_within(mode: u8, kind: u8) -> u8
    ensures { result ≡ mode_within mode kind }
{
    if mode == 4 {
        if kind == SEMICOLON {
            return 1;
        }
        return 4;
    }
    if mode == 2 {
        return 3;
    }
    if kind == MEASURE {
        return 2;
    }
    if ends_part(kind) {
        return 1;
    }
    if (mode == 1) & starts_type(kind) {
        return 4;
    }
    0
}

fn mode_outside(kind: u8) -> u8
    ensures { result ≡ mode_after 0 0 kind }
{
    if kind == OPEN_BRACE {
        return 1;
    }
    0
}

pub fn mode_after(mode: u8, braces: usize, kind: u8) -> u8
    ensures { result ≡ mode_after mode braces kind }
{
    if braces == 0 {
        return mode_outside(kind);
    }
    if kind == CLOSE_BRACE {
        if braces == 1 {
            return 0;
        }
        return 1;
    }
    mode_within(mode, kind)
}

fn name_role(mode: u8, braces: usize, following: u8) -> u8
    ensures { result ≡ name_role mode braces following }
{
    if braces == 0 {
        if following == OPEN {
            return 1;
        }
        return 2;
    }
    if mode == 4 {
        return 2;
    }
    if mode == 3 {
        return 0;
    }
    if following == OPEN {
        if mode == 1 {
            return 5;
        }
        return 4;
    }
    3
}

fn brace_role(braces: usize, kind: u8) -> u8
    ensures { result ≡ brace_role braces kind }
{
    if braces == 0 {
        return 0;
    }
    if kind == OPEN_BRACE {
        return 6;
    }
    if kind == CLOSE_BRACE {
        if braces == 1 {
            return 8;
        }
        return 7;
    }
    0
}

// Roles: 1 names a method, 2 is declared, 3 is used, 4 is called in an expression or a fork, 5 is called as a
// statement, 6 opens a block, 7 closes one, 8 ends a method, 0 does none of this.
pub fn role(mode: u8, braces: usize, kind: u8, following: u8) -> u8
    ensures { result ≡ role mode braces kind following }
{
    if kind == NAME {
        return name_role(mode, braces, following);
    }
    brace_role(braces, kind)
}
