// Values pushed, taken and stored. Each function does what its op does, or answers none and does nothing.
ghost use Rattle.std.specs.Prelude.{◌≡◌, ◌+◌, ◌<◌, ◌≤◌};
ghost use Rattle.run_values.specs.ValuesCode.{after_step, push_on, on_top, drop_to, over_two, in_slot};
ghost use Rattle.run_moves.specs.MovesCode.{get_op, put_op, drop_op, end_op};
ghost use Rattle.run_cursor.specs.CursorCode.{head_with, laid, HeadFits, CursorStep, CursorWent, Only};
ghost use Rattle.run_values.specs.declared.steps.StepResult.TheVariants.{WentOn};

use super::cursor::{Cursor, free, read_top, slot, write};
use run_store::head::Head;
use run_store::values::{Val, empty};

// A value pushed, where there is room. It is written as the top one, so that its address is computed like that of the
// others.
pub fn push(w: &mut [u32], h: Head, c: Cursor, v: Val) -> Option<Cursor>
    requires { HeadFits h w.old c × (c.place < 65536) }
    ensures { CursorStep (after_step WentOn (push_on (laid w.old h c) (head_with h c) v)) (Only (c.place + 1)) h w.old w.new result }
{
    if 8 <= c.pending {
        return None;
    }
    let up = Cursor {
        place: c.place + 1,
        pending: c.pending + 1,
    };
    write(w, free(h, up) - 2, v);
    Some(up)
}

// The top value replaced.
pub fn replace(w: &mut [u32], h: Head, c: Cursor, v: Val) -> Cursor
    requires { HeadFits h w.old c × (c.place < 65536) × (1 ≤ c.pending) }
    ensures { CursorWent (after_step WentOn (on_top (laid w.old h c) (head_with h c) v)) (Only (c.place + 1)) h w.new result }
{
    write(w, free(h, c) - 2, v);
    Cursor {
        place: c.place + 1,
        pending: c.pending,
    }
}

// The top value off, and the frame at instruction `to`.
pub fn discard_to(w: &mut [u32], h: Head, c: Cursor, to: usize) -> Cursor
    requires { HeadFits h w.old c × (1 ≤ c.pending) }
    ensures { CursorWent (after_step WentOn (drop_to (laid w.old h c) (head_with h c) to)) (Only to) h w.new result }
{
    write(w, free(h, c) - 2, empty());
    Cursor {
        place: to,
        pending: c.pending - 1,
    }
}

// Two values off, one on.
pub fn replace_two(w: &mut [u32], h: Head, c: Cursor, v: Val) -> Cursor
    requires { HeadFits h w.old c × (c.place < 65536) × (2 ≤ c.pending) }
    ensures { CursorWent (after_step WentOn (over_two (laid w.old h c) (head_with h c) v)) (Only (c.place + 1)) h w.new result }
{
    let at = free(h, c);
    write(w, at - 2, empty());
    write(w, at - 4, v);
    Cursor {
        place: c.place + 1,
        pending: c.pending - 1,
    }
}

// A slot written.
pub fn store_slot(w: &mut [u32], h: Head, c: Cursor, a: u16, v: Val) -> Cursor
    requires { HeadFits h w.old c × (c.place < 65536) × (a < 16) }
    ensures { CursorWent (after_step WentOn (in_slot (laid w.old h c) (head_with h c) a v)) (Only (c.place + 1)) h w.new result }
{
    write(w, slot(h, a), v);
    Cursor {
        place: c.place + 1,
        pending: c.pending,
    }
}

pub fn get(w: &mut [u32], h: Head, c: Cursor, a: u16) -> Option<Cursor>
    requires { HeadFits h w.old c × (c.place < 65536) × (a < 16) }
    ensures { CursorStep (get_op (laid w.old h c) (head_with h c) a) (Only (c.place + 1)) h w.old w.new result }
{
    let at = slot(h, a);
    let tag = w[at];
    if tag == 0 {
        return None;
    }
    let number = w[at + 1];
    push(w, h, c, Val { tag, number })
}

pub fn put(w: &mut [u32], h: Head, c: Cursor, a: u16) -> Option<Cursor>
    requires { HeadFits h w.old c × (c.place < 65536) × (a < 16) }
    ensures { CursorStep (put_op (laid w.old h c) (head_with h c) a) (Only (c.place + 1)) h w.old w.new result }
{
    let v = read_top(w, h, c)?;
    Some(store_slot(w, h, c, a, v))
}

pub fn drop_top(w: &mut [u32], h: Head, c: Cursor) -> Option<Cursor>
    requires { HeadFits h w.old c × (c.place < 65536) }
    ensures { CursorStep (drop_op (laid w.old h c) (head_with h c)) (Only (c.place + 1)) h w.old w.new result }
{
    read_top(w, h, c)?;
    Some(discard_to(w, h, c, c.place + 1))
}

// An end has the tag 5 or 6, by its side, and the channel's number.
pub fn end_of(w: &mut [u32], h: Head, c: Cursor, a: u16) -> Option<Cursor>
    requires { HeadFits h w.old c × (c.place < 65536) }
    ensures { CursorStep (end_op (laid w.old h c) (head_with h c) a) (Only (c.place + 1)) h w.old w.new result }
{
    let number = read_top(w, h, c)?.number;
    let tag = 5 + a as u32;
    Some(replace(w, h, c, Val { tag, number }))
}
