// The number that digits say, as far as numbers are kept apart.
ghost use Rattle.std.specs.Prelude.{◌≡◌, ◌+◌, ◌*◌, ◌-◌};
ghost use Rattle.text_parse.specs.Tokens.{numeral_of};
ghost use Rattle.text_tokens.specs.Places.{token_of};
ghost use Rattle.text_tokens.specs.Numbers.{capped};

use crate::bytes::{byte_at, size};

// "a number above 32,767" is refused (32); this stands for all of them.
pub const TOO_LARGE: u32 = 32768;

// What a digit counts; a byte below 0's counts as 0, as it does in the definition.
fn digit(b: u8) -> u32
    ensures { result ≡ b - 48 }
{
    if b <= 48 {
        return 0;
    }
    (b - 48) as u32
}

// A number with a further digit.
fn longer(v: u32, b: u8) -> u32
    ensures { result ≡ capped (10 * v + (b - 48)) }
{
    if TOO_LARGE <= v {
        return TOO_LARGE;
    }
    let n = 10 * v + digit(b);
    if n < TOO_LARGE {
        return n;
    }
    TOO_LARGE
}

pub fn number_of(text: &[u8], start: usize, end: usize) -> u32
    ensures { result ≡ capped (numeral_of (token_of text.now start end)) }
{
    let n = size(text, start, end);
    let mut v: u32 = 0;
    let mut k = 0;
    while k < n {
        v = longer(v, byte_at(text, start + k));
        k += 1;
    }
    v
}
