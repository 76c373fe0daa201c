// Lines written into a lent trace: `write_line` leaves it with one line written and every other word kept, `write_two`
// with two. A write past its end does nothing, so that nothing is asked of the caller but an index that can be computed
// with.
#![tactic(auto)]

ghost use Rattle.std.specs.Prelude.{◌≡◌, ◌+◌, ◌*◌, ◌<◌, length};
ghost use Rattle.trace_lines.specs.WrittenCode.{with_three, with_six, with_line};

use slices::put;

// "Six 16-bit numbers: entry (from 0), process, kind, a, b, c; unused ones 65535."
#[derive(Clone, Copy)]
pub struct TraceLine {
    pub entry: u16,
    pub process: u16,
    pub kind: u16,
    pub a: u16,
    pub b: u16,
    pub c: u16,
}

// Three words, each where it is within the trace.
#[tactic(auto, unfolding(crate::specs::WrittenCode::with_three))]
fn put_three(t: &mut [u16], at: usize, x: u16, y: u16, z: u16)
    requires { at < 4294967296 }
    ensures { t.new ≡ with_three t.old at x y z }
{
    put(t, at, x);
    put(t, at + 1, y);
    put(t, at + 2, z);
}

// The six words of a line, all of them within the trace.
fn put_six(t: &mut [u16], at: usize, l: TraceLine)
    requires { at + 5 < length t.old }
    ensures { t.new ≡ with_six t.old at l }
{
    t[at] = l.entry;
    t[at + 1] = l.process;
    t[at + 2] = l.kind;
    t[at + 3] = l.a;
    t[at + 4] = l.b;
    t[at + 5] = l.c;
}

// Line number i written. A run has fewer than 2^20 lines: at most 9 for each of 65,535 entries.
#[tactic(auto, unfolding(crate::specs::WrittenCode::with_line, crate::specs::WrittenCode::with_six))]
pub fn write_line(t: &mut [u16], i: u32, l: TraceLine)
    requires { i < 16777216 }
    ensures { t.new ≡ with_line t.old i l }
{
    let at = 6 * (i as usize);
    if at + 5 < t.len() {
        put_six(t, at, l);
    } else {
        put_three(t, at, l.entry, l.process, l.kind);
        put_three(t, at + 3, l.a, l.b, l.c);
    }
}

// Line number i and the next one, with one test where both are within the trace.
pub fn write_two(t: &mut [u16], i: u32, l: TraceLine, m: TraceLine)
    requires { i < 16000000 }
    ensures { t.new ≡ with_line (with_line t.old i l) (i + 1) m }
{
    let at = 6 * (i as usize);
    if at + 11 < t.len() {
        put_six(t, at, l);
        put_six(t, at + 6, m);
    } else {
        write_line(t, i, l);
        write_line(t, i + 1, m);
    }
}
