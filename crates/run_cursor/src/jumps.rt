// JUMP and JFALSE; `offset` is where the method starts.
ghost use Rattle.std.specs.Prelude.{◌≡◌, ◌+◌, ◌<◌};
ghost use Rattle.table.specs.Table.{offset_of};
ghost use Rattle.run_moves.specs.MovesCode.{jump_op, jfalse_op};
ghost use Rattle.run_cursor.specs.CursorCode.{head_with, laid, HeadFits, CursorStep, CursorWent, Only, OneOf};

use super::cursor::{Cursor, read_top};
use super::moves::discard_to;
use run_store::head::Head;

pub fn jump(p: &[u16], w: &mut [u32], h: Head, c: Cursor, offset: u32, a: u16) -> Cursor
    requires { HeadFits h w.old c × (offset ≡ offset_of p.now h.method) × (offset < 65536) }
    ensures { CursorWent (jump_op p.now (laid w.old h c) (head_with h c) a) (Only (offset +
        a)) h w.new result }
{
    Cursor {
        place: (offset + a as u32) as usize,
        pending: c.pending,
    }
}

pub fn jump_on_false(
    p: &[u16],
    w: &mut [u32],
    h: Head,
    c: Cursor,
    offset: u32,
    a: u16,
) -> Option<Cursor>
    requires { HeadFits h w.old c × (c.place < 65536) × (offset ≡ offset_of p.now h.method)
        × (offset < 65536) }
    ensures { CursorStep (jfalse_op p.now (laid w.old h c) (head_with h c) a) (OneOf
        (offset + a) (c.place + 1)) h w.old w.new result }
{
    let v = read_top(w, h, c)?;
    if v.number == 0 {
        return Some(discard_to(w, h, c, (offset + a as u32) as usize));
    }
    Some(discard_to(w, h, c, c.place + 1))
}
