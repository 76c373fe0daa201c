// Whether a name is declared in a block that is open at a place.
ghost use Rattle.std.specs.Prelude.{◌≡◌, not, ◌&&◌, eqb, ltb};
ghost use Rattle.std.proofs.Math.Seq.{slice};
ghost use Rattle.text_tokens.specs.Places.{tokens_at};
ghost use Rattle.text_roles.specs.FoundCode.{level_of, found_after, found_up_to};

use crate::scan::{mode_after, role};
use text_methods::braces::braces_after;
use text_tokens::bytes::same_word;
use text_tokens::kinds::END;
use text_tokens::next::next_token;

// The level of the innermost block; parameters stand in that of the body.
pub fn level_of(braces: usize) -> usize
    ensures { result ≡ level_of braces }
{
    if braces == 0 {
        return 1;
    }
    braces
}

// The level of the outermost block that has the name, after a token of role r; 0 where none has it.
fn found_after(least: usize, braces: usize, r: u8, is: bool, found: usize) -> usize
    ensures { result ≡ found_after least braces r is found }
{
    if r == 1 {
        return 0;
    }
    if r == 2 {
        let level = level_of(braces);
        if (found == 0) & ((least <= level) & is) {
            return level;
        }
        return found;
    }
    if (r == 7) | (r == 8) {
        if found == braces {
            return 0;
        }
        return found;
    }
    found
}

fn goes_on(kind: u8, start: usize, to: usize) -> bool
    ensures { result ≡ (not (eqb kind 32) && ltb start to) }
{
    (kind != END) & (start < to)
}

// The method's tokens stand from a place on; the name stands at start up to end.
pub fn found_level(
    text: &[u8],
    from: usize,
    to: usize,
    least: usize,
    start: usize,
    end: usize,
) -> usize
    ensures { result ≡ found_up_to least (slice start end text.now) to 0 0 0 (tokens_at text.now from) }
{
    let mut at = from;
    let mut mode = 0;
    let mut braces = 0;
    let mut found = 0;
    let first = next_token(text, at);
    let mut more = goes_on(first.kind, first.start, to);
    while more {
        let t = next_token(text, at);
        let u = next_token(text, t.end);
        let r = role(mode, braces, t.kind, u.kind);
        let is = same_word(text, start, end, t.start, t.end);
        found = found_after(least, braces, r, is, found);
        mode = mode_after(mode, braces, t.kind);
        braces = braces_after(braces, t.kind);
        at = t.end;
        more = goes_on(u.kind, u.start, to);
    }
    found
}
