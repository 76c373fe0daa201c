// The methods of a text, written down in one pass, so that no name that is called makes the text be read again. Word 0
// of an index is how many methods there are. Words 4 i + 1 to 4 i + 4 are of method i in text order, for the first 32:
// where its name starts and ends, a place from which on its tokens stand, and how many parameters it has.
ghost use Rattle.std.specs.Prelude.{◌≡◌, cond, ◌&&◌, ◌≤◌, ◌<◌, ltb, length};
ghost use Rattle.text_tokens.specs.Places.{tokens_at};
ghost use Rattle.text_scan.specs.ScanCode.{argument_count};
ghost use Rattle.text_methods.specs.IndexCode.{with_entry, Indexed};

use crate::arguments::count_arguments;
use crate::braces::braces_after;
use crate::find::{header_after, names_method};
use text_tokens::kinds::END;
use text_tokens::next::{TokenAt, next_token};

// The four words of entry i.
fn put_entry(index: &mut [usize], i: usize, start: usize, end: usize, at: usize, params: usize)
    requires { (i < 32) × (129 ≤ length index.old) }
    ensures { index.new ≡ with_entry index.old i start end at params }
{
    index[4 * i + 1] = start;
    index[4 * i + 2] = end;
    index[4 * i + 3] = at;
    index[4 * i + 4] = params;
}

// The name t of a method, whose header begins at a place and whose parameters do at another. A table has at most
// 32 methods, and so there are words for no more.
fn enter(
    text: &[u8],
    index: &mut [usize],
    named: bool,
    i: usize,
    t: TokenAt,
    header: usize,
    from: usize,
)
    requires { 129 ≤ length index.old }
    ensures { index.new ≡ cond (named && ltb i 32)
        (with_entry index.old i t.start t.end header
        (argument_count (tokens_at text.now from)))
        index.old }
{
    if named & (i < 32) {
        let params = count_arguments(text, from);
        put_entry(index, i, t.start, t.end, header, params);
    }
}

// The index of a text.
pub fn index_methods(text: &[u8], index: &mut [usize])
    requires { 129 ≤ length index.old }
    ensures { Indexed text.now index.new }
{
    let mut header = 0;
    let mut braces = 0;
    let mut i = 0;
    let mut t = next_token(text, 0);
    while t.kind != END {
        let u = next_token(text, t.end);
        let named = names_method(braces, t.kind, u.kind);
        enter(text, index, named, i, t, header, u.end);
        i += usize::from(named);
        header = header_after(braces, t.kind, header, t.end);
        braces = braces_after(braces, t.kind);
        t = u;
    }
    index[0] = i;
}
