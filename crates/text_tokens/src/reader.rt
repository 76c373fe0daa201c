// A text and a place in it, held together. The functions over it are few and thin; the work is that of `next_token`.
ghost use Rattle.std.specs.Prelude.{◌≡◌};
ghost use Rattle.text_tokens.specs.NextCode.{NextToken};

use crate::next::{TokenAt, next_token};

#[derive(Drop)]
pub struct Reader<'a> {
    pub text: &'a [u8],
    pub at: usize,
}

// A text from its first byte on.
pub fn open<'a>(text: &'a [u8]) -> Reader<'a>
    ensures { (result.text ≡ text.entry) × (result.at ≡ 0) }
{
    Reader { text, at: 0 }
}

// The next token.
pub fn peek<'a>(r: Reader<'a>) -> TokenAt
    ensures { NextToken r.entry.text.now r.entry.at result }
{
    next_token(r.text, r.at)
}

// The same text from another place on.
pub fn moved<'a>(r: Reader<'a>, at: usize) -> Reader<'a>
    ensures { (result.text ≡ r.entry.text) × (result.at ≡ at) }
{
    Reader { text: r.text, at }
}

// The next token of a text from a place on, for callers that hold no reader.
pub fn here(text: &[u8], at: usize) -> TokenAt
    ensures { NextToken text.now at result }
{
    peek(moved(open(text), at))
}
