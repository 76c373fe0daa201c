// One step at the cursor.
ghost use Rattle.std.specs.Prelude.{◌≡◌, ◌+◌, ◌*◌, ◌<◌};
ghost use Rattle.table.specs.Table.{methods, offset_of};
ghost use Rattle.table.proofs.Accepted.{Kept};
ghost use Rattle.table.proofs.Owners.{Inside};
ghost use Rattle.run_ops.specs.OpsCode.{act_op, step_op};
ghost use Rattle.run_cursor.specs.CursorCode.{head_with, laid, HeadFits, CursorStep};
ghost use Rattle.run_stretch.specs.StretchCode.{At};

use run_cursor::cursor::Cursor;
use run_cursor::jumps::{jump, jump_on_false};
use run_cursor::moves::{drop_top, end_of, get, push, put, store_slot};
use run_cursor::numbers::{add, eq, less, not, sub};
use run_moves::moves::extend;
use run_store::head::Head;
use run_store::values::{Val, empty};

// The op's function; none where the op is not done here. All numbers below 32 have an arm, and each its own, so that no test
// of the number is compiled.
pub fn act(
    p: &[u16],
    w: &mut [u32],
    h: Head,
    c: Cursor,
    offset: u32,
    op: usize,
    a: u16,
) -> Option<Cursor>
    requires { HeadFits h w.old c × (c.place < 65536) × (offset ≡ offset_of p.now h.method) × (offset < 65536)
        × Kept p.now × At p.now h.method c.place op a }
    ensures { CursorStep (act_op p.now (laid w.old h c) (head_with h c) op a) (Inside p.now h.method) h w.old w.new result }
{
    match op {
        0 => None,
        1 => {
            let number = extend(a);
            push(w, h, c, Val { tag: 1, number })
        }
        2 => {
            let number = a as u32;
            push(w, h, c, Val { tag: 2, number })
        }
        3 => get(w, h, c, a),
        4 => put(w, h, c, a),
        5 => drop_top(w, h, c),
        6 => Some(store_slot(w, h, c, a, empty())),
        7 => None,
        8 => None,
        9 => end_of(w, h, c, a),
        10 => None,
        11 => None,
        12 => None,
        13 => None,
        14 => None,
        15 => None,
        16 => None,
        17 => Some(jump(p, w, h, c, offset, a)),
        18 => jump_on_false(p, w, h, c, offset, a),
        19 => add(w, h, c),
        20 => sub(w, h, c),
        21 => eq(w, h, c),
        22 => less(w, h, c),
        23 => not(w, h, c),
        24 => None,
        25 => None,
        26 => None,
        27 => None,
        28 => None,
        29 => None,
        30 => None,
        _ => None,
    }
}

// The step of the process. That the place is one of the method's is known, and so by the check what its instruction can
// be.
pub fn step_on(
    p: &[u16],
    start: usize,
    w: &mut [u32],
    h: Head,
    c: Cursor,
    offset: u32,
) -> Option<Cursor>
    requires { HeadFits h w.old c × (h.status ≡ 1) × (offset ≡ offset_of p.now h.method) × (offset < 65536)
        × (start ≡ 2 + 20 * methods p.now) × Kept p.now × Inside p.now h.method c.place }
    ensures { CursorStep (step_op p.now (laid w.old h c)) (Inside p.now h.method) h w.old w.new result }
{
    let at = start + 2 * c.place;
    let op = (p[at] % 32) as usize;
    act(p, w, h, c, offset, op, p[at + 1])
}
