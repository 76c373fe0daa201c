// How many arguments, or parameters, stand in brackets.
ghost use Rattle.std.specs.Prelude.{◌≡◌, ◌&&◌, ◌||◌, eqb};
ghost use Rattle.text_tokens.specs.Places.{tokens_at};
ghost use Rattle.text_scan.specs.ScanCode.{count_from, argument_count};

use crate::braces::{count_after, depth_after};
use text_tokens::kinds::{CLOSE, END};
use text_tokens::next::next_token;
use text_types::place::next_kind;

// The count ends at the closing bracket, or at the text's end.
fn ends_count(depth: usize, kind: u8) -> bool
    ensures { result ≡ (eqb kind 32 || (eqb depth 0 && eqb kind 20)) }
{
    (kind == END) | ((depth == 0) & (kind == CLOSE))
}

fn count_from(text: &[u8], from: usize) -> usize
    ensures { result ≡ count_from 0 1 (tokens_at text.now from) }
{
    let mut at = from;
    let mut depth = 0;
    let mut n = 1;
    let mut kind = next_kind(text, at);
    let mut ended = ends_count(depth, kind);
    while !ended {
        let t = next_token(text, at);
        n = count_after(depth, n, kind);
        depth = depth_after(depth, kind);
        at = t.end;
        kind = next_kind(text, at);
        ended = ends_count(depth, kind);
    }
    n
}

// From after the opening bracket on.
pub fn count_arguments(text: &[u8], from: usize) -> usize
    ensures { result ≡ argument_count (tokens_at text.now from) }
{
    let kind = next_kind(text, from);
    if kind == CLOSE {
        return 0;
    }
    count_from(text, from)
}
