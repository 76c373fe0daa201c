// Whether two traces have the same lines, column 0 left out, and the same gaps from each line to the next.
ghost use Rattle.std.specs.Prelude.{◌≡◌, ◌<◌, length};
ghost use Rattle.machine.specs.Value.{eq_z};
ghost use Rattle.trace.specs.Trace.{lines_of, same_line, gap, same_lines};
ghost use Rattle.trace.specs.ReadCode.{as_line, same_at};

use super::read::{line_at, line_count};
use trace_lines::TraceLine;

// Columns 1 to 5 agree.
fn same_line(l: TraceLine, m: TraceLine) -> bool
    ensures { result ≡ same_line (as_line l) (as_line m) }
{
    (l.process == m.process) & (l.kind == m.kind) & (l.a == m.a) & (l.b == m.b) & (l.c == m.c)
}

// From l1 to l2 the entry number changes by as much as from m1 to m2. Sums are compared in place of differences: in 32
// bits they do not wrap, and they have no sign.
fn same_gap(l1: TraceLine, l2: TraceLine, m1: TraceLine, m2: TraceLine) -> bool
    ensures { result ≡ eq_z (gap (as_line l1) (as_line l2)) (gap (as_line m1) (as_line m2)) }
{
    let left = (l2.entry as u32) + (m1.entry as u32);
    let right = (m2.entry as u32) + (l1.entry as u32);
    left == right
}

// Of two traces of n lines: line i agrees, and so does the gap to the next line, if there is one.
fn same_at(a: &[u16], b: &[u16], n: usize, i: usize) -> bool
    requires { (i < n) × (n ≡ length (lines_of a.now)) × (n ≡ length (lines_of b.now)) }
    ensures { result ≡ same_at (lines_of a.now) (lines_of b.now) i }
{
    let l = line_at(a, i);
    let m = line_at(b, i);
    if 1 < n - i {
        let next = i + 1;
        return same_line(l, m) & same_gap(l, line_at(a, next), m, line_at(b, next));
    }
    same_line(l, m)
}

// "The same-lines answer is no where the numbers of lines differ." It stops at the first difference.
pub fn same_lines(a: &[u16], b: &[u16]) -> bool
    ensures { result ≡ same_lines a.now b.now }
{
    let n = line_count(a);
    if n != line_count(b) {
        return false;
    }
    for i in 0..n {
        if !same_at(a, b, n, i) {
            return false;
        }
    }
    true
}
