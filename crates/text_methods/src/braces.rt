// How many braces and brackets are open after a token.
ghost use Rattle.std.specs.Prelude.{◌≡◌, ◌^◌, ◌<◌};
ghost use Rattle.text_scan.specs.ScanCode.{braces_after, depth_after, count_after};

use text_tokens::kinds::{CLOSE, CLOSE_BRACE, COMMA, OPEN, OPEN_BRACE};

pub fn braces_after(braces: usize, kind: u8) -> usize
    requires { braces < 2 ^ 63 }
    ensures { result ≡ braces_after braces kind }
{
    if kind == OPEN_BRACE {
        return braces + 1;
    }
    if kind == CLOSE_BRACE {
        return braces.saturating_sub(1);
    }
    braces
}

pub fn depth_after(depth: usize, kind: u8) -> usize
    requires { depth < 2 ^ 63 }
    ensures { result ≡ depth_after depth kind }
{
    if kind == OPEN {
        return depth + 1;
    }
    if kind == CLOSE {
        return depth.saturating_sub(1);
    }
    depth
}

// One argument more after a comma that stands in no further bracket.
pub fn count_after(depth: usize, n: usize, kind: u8) -> usize
    requires { n < 2 ^ 63 }
    ensures { result ≡ count_after depth n kind }
{
    if (depth == 0) & (kind == COMMA) {
        return n + 1;
    }
    n
}
