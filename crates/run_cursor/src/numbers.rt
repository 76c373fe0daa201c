// ADD, SUB, EQ, LESS and NOT.
ghost use Rattle.std.specs.Prelude.{◌≡◌, ◌+◌, ◌<◌, ◌≤◌};
ghost use Rattle.run_numbers.specs.NumbersCode.{result_op, add_op, sub_op, eq_op, less_op, not_op};
ghost use Rattle.run_cursor.specs.CursorCode.{head_with, laid, HeadFits, CursorStep, Only};

use super::cursor::{Cursor, read_top, read_two};
use super::moves::{replace, replace_two};
use run_numbers::numbers::{bias, flag};
use run_store::head::Head;
use run_store::values::Val;

// The int whose number, moved up by 2^32, is s, in place of two operands, where it is in range.
pub fn result(w: &mut [u32], h: Head, c: Cursor, s: u64) -> Option<Cursor>
    requires { HeadFits h w.old c × (c.place < 65536) × (2 ≤ c.pending) }
    ensures { CursorStep (result_op (laid w.old h c) (head_with h c) s) (Only (c.place + 1)) h w.old w.new result }
{
    if s < 2147483648 {
        return None;
    }
    if 6442450944 <= s {
        return None;
    }
    let number = (s % 4294967296) as u32;
    Some(replace_two(w, h, c, Val { tag: 1, number }))
}

pub fn add(w: &mut [u32], h: Head, c: Cursor) -> Option<Cursor>
    requires { HeadFits h w.old c × (c.place < 65536) }
    ensures { CursorStep (add_op (laid w.old h c) (head_with h c)) (Only (c.place + 1)) h w.old w.new result }
{
    let (x, y) = read_two(w, h, c)?;
    result(w, h, c, bias(x) + bias(y))
}

pub fn sub(w: &mut [u32], h: Head, c: Cursor) -> Option<Cursor>
    requires { HeadFits h w.old c × (c.place < 65536) }
    ensures { CursorStep (sub_op (laid w.old h c) (head_with h c)) (Only (c.place + 1)) h w.old w.new result }
{
    let (x, y) = read_two(w, h, c)?;
    result(w, h, c, bias(x) + 4294967296 - bias(y))
}

pub fn eq(w: &mut [u32], h: Head, c: Cursor) -> Option<Cursor>
    requires { HeadFits h w.old c × (c.place < 65536) }
    ensures { CursorStep (eq_op (laid w.old h c) (head_with h c)) (Only (c.place + 1)) h w.old w.new result }
{
    let (x, y) = read_two(w, h, c)?;
    Some(replace_two(w, h, c, flag(x == y)))
}

pub fn less(w: &mut [u32], h: Head, c: Cursor) -> Option<Cursor>
    requires { HeadFits h w.old c × (c.place < 65536) }
    ensures { CursorStep (less_op (laid w.old h c) (head_with h c)) (Only (c.place + 1)) h w.old w.new result }
{
    let (x, y) = read_two(w, h, c)?;
    Some(replace_two(w, h, c, flag(bias(x) < bias(y))))
}

pub fn not(w: &mut [u32], h: Head, c: Cursor) -> Option<Cursor>
    requires { HeadFits h w.old c × (c.place < 65536) }
    ensures { CursorStep (not_op (laid w.old h c) (head_with h c)) (Only (c.place + 1)) h w.old w.new result }
{
    let v = read_top(w, h, c)?;
    Some(replace(w, h, c, flag(v.number == 0)))
}
