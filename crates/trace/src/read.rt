// Lines read from any words: "Six words make a line, and a part of one at the end is ignored."
ghost use Rattle.std.specs.Prelude.{◌≡◌, ◌+◌, ◌≤◌, ◌<◌, length, get_or};
ghost use Rattle.machine.specs.Owner.{no_line};
ghost use Rattle.trace.specs.Trace.{lines_of};
ghost use Rattle.trace.specs.ReadCode.{as_line, line_from};

use trace_lines::TraceLine;

// How many whole lines there are.
pub fn line_count(t: &[u16]) -> usize
    ensures { result ≡ length (lines_of t.now) }
{
    t.len() / 6
}

// The six words from `at` on.
fn line_from(t: &[u16], at: usize) -> TraceLine
    requires { at + 6 ≤ length t.now }
    ensures { as_line result ≡ line_from t.now at }
{
    TraceLine {
        entry: t[at],
        process: t[at + 1],
        kind: t[at + 2],
        a: t[at + 3],
        b: t[at + 4],
        c: t[at + 5],
    }
}

// Line number i.
pub fn line_at(t: &[u16], i: usize) -> TraceLine
    requires { i < length (lines_of t.now) }
    ensures { as_line result ≡ get_or (lines_of t.now) i no_line }
{
    line_from(t, 6 * i)
}
