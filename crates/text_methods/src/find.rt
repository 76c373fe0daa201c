// A method of a text by its name.
ghost use Rattle.std.specs.Prelude.{◌≡◌, cond};
ghost use Rattle.text_methods.specs.RowsCode.{names_method, ends_method, FirstNamed};

use crate::arguments::count_arguments;
use crate::braces::braces_after;
use text_tokens::bytes::is_word;
use text_tokens::kinds::{CLOSE_BRACE, END, NAME, OPEN};
use text_tokens::next::next_token;
use text_types::place::next_kind;

// How many methods stand before it in text order, a place from which on its tokens stand, and how many parameters it
// has.
#[derive(Clone, Copy)]
pub struct MethodAt {
    pub index: usize,
    pub at: usize,
    pub params: usize,
}

// No method has the name; so many methods stand in the text.
#[derive(Clone, Copy, Debug, PartialEq, Eq)]
pub struct NoSuchMethod {
    pub methods: usize,
}

// Outside any brace a name before ( is a method's.
pub fn names_method(braces: usize, kind: u8, following: u8) -> bool
    ensures { result ≡ names_method braces kind following }
{
    (braces == 0) & ((kind == NAME) & (following == OPEN))
}

// After the brace that ends a method the next header begins.
pub fn header_after(braces: usize, kind: u8, header: usize, end: usize) -> usize
    ensures { result ≡ cond (ends_method braces kind) end header }
{
    if (braces == 1) & (kind == CLOSE_BRACE) {
        return end;
    }
    header
}

// The first method with this name, of any text.
pub fn find_row(text: &[u8], word: &[u8]) -> Result<MethodAt, NoSuchMethod>
    ensures { FirstNamed text.now word.now result }
{
    let mut at = 0;
    let mut header = 0;
    let mut braces = 0;
    let mut index = 0;
    let mut kind = next_kind(text, at);
    while kind != END {
        let t = next_token(text, at);
        let u = next_token(text, t.end);
        let named = names_method(braces, kind, u.kind);
        let same = is_word(text, t.start, t.end, word);
        if named & same {
            return Ok(MethodAt {
                index,
                at: header,
                params: count_arguments(text, u.end),
            });
        }
        index += usize::from(named);
        header = header_after(braces, kind, header, t.end);
        braces = braces_after(braces, kind);
        at = t.end;
        kind = u.kind;
    }
    Err(NoSuchMethod { methods: index })
}
