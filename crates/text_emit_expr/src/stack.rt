// The stack of instructions that wait, in a lent slice of three words for each of 4096 entries. All of them are to be
// written, so an entry more would be an instruction that no table has.
ghost use Rattle.std.specs.Prelude.{◌≡◌, ◌&&◌, ◌||◌, ◌<◌, ◌≤◌, eqb, leb};
ghost use Rattle.text_emit_expr.specs.EndsCode.{Push, Pop, top_of, goes, Flush};

use crate::state::{StateAt, gave_up, put};
use slices::at_or;

pub fn push(pending: &mut [usize], s: StateAt, op: usize, argument: usize, at: usize) -> StateAt
    ensures { Push pending.old s op argument at pending.new result }
{
    if 4096 <= s.entries {
        return gave_up(s);
    }
    slices::put(pending, 3 * s.entries, op);
    slices::put(pending, 3 * s.entries + 1, argument);
    slices::put(pending, 3 * s.entries + 2, s.unclosed);
    StateAt {
        phase: 0,
        at,
        unclosed: 0,
        entries: s.entries + 1,
        count: s.count,
    }
}

// The op that waits innermost; 0 where a bracket is open above it, or none waits.
pub fn top(pending: &[usize], s: StateAt) -> usize
    requires { s.entries ≤ 4096 }
    ensures { result ≡ top_of pending.now s }
{
    if 0 < s.unclosed {
        return 0;
    }
    if s.entries == 0 {
        return 0;
    }
    at_or(pending, 3 * (s.entries - 1), 0)
}

// The instruction that waits innermost is written.
pub fn pop(pending: &[usize], code: &mut [usize], s: StateAt, phase: u8, at: usize) -> StateAt
    requires { (0 < s.entries) × (s.entries ≤ 4096) }
    ensures { Pop pending.now code.old s phase at code.new result }
{
    if 4096 <= s.count {
        return gave_up(s);
    }
    let i = 3 * (s.entries - 1);
    let op = at_or(pending, i, 0);
    let argument = at_or(pending, i + 1, 0);
    put(code, s.count, op, argument);
    StateAt {
        phase,
        at,
        unclosed: at_or(pending, i + 2, 0),
        entries: s.entries - 1,
        count: s.count + 1,
    }
}

// An operator's op waits for the end of its expression; so does PUT, 4, for which `puts` asks.
fn goes(op: usize, puts: bool) -> bool
    ensures { result ≡ goes op puts }
{
    (19 <= op) | ((op == 4) & puts)
}

// Where an expression has ended: the operators' instructions that waited for it are written, and PUTs where `puts`.
pub fn flush(pending: &[usize], code: &mut [usize], s: StateAt, puts: bool) -> StateAt
    requires { (s.phase ≡ 2) × (s.entries ≤ 4096) }
    ensures { Flush pending.now code.old s puts code.new result }
{
    let mut t = s;
    let first = top(pending, t);
    let mut more = goes(first, puts);
    while more {
        let u = pop(pending, code, t, 2, t.at);
        t = u;
        if t.phase == 4 {
            return t;
        }
        let op = top(pending, t);
        more = goes(op, puts);
    }
    t
}
