// Where the top frame stands, and its topmost values.
ghost use Rattle.std.specs.Prelude.{◌≡◌, ◌+◌, ◌*◌, ◌<◌, length};
ghost use Rattle.run_store.specs.StoreCode.{put_value};
ghost use Rattle.run_cursor.specs.CursorCode.{HeadFits, TopRead, TwoRead};

use run_store::head::Head;
use run_store::values::Val;

// The place and the number of pending values. A step that is not taken here answers none, and leaves the words. With a
// place of four bytes the two would be packed into eight, and taken apart again, at every step.
#[derive(Clone, Copy)]
pub struct Cursor {
    pub place: usize,
    pub pending: u32,
}

// Where the next free value of the top frame stands.
pub fn free(h: Head, c: Cursor) -> usize
    ensures { result ≡ 48 + 48 * h.frames + 2 * c.pending }
{
    48 + 48 * (h.frames as usize) + 2 * (c.pending as usize)
}

// Where slot a of the top frame stands.
pub fn slot(h: Head, a: u16) -> usize
    ensures { result ≡ 16 + 48 * h.frames + 2 * a }
{
    16 + 48 * (h.frames as usize) + 2 * (a as usize)
}

// A value written.
pub fn write(w: &mut [u32], at: usize, v: Val)
    requires { at + 1 < length w.old }
    ensures { w.new ≡ put_value w.old at v }
{
    w[at] = v.tag;
    w[at + 1] = v.number;
}

// The top value, where there is one and it is not emptied.
pub fn read_top(w: &[u32], h: Head, c: Cursor) -> Option<Val>
    requires { HeadFits h w.now c }
    ensures { TopRead w.now h c result }
{
    if c.pending < 1 {
        return None;
    }
    let at = free(h, c) - 2;
    let tag = w[at];
    if tag == 0 {
        return None;
    }
    Some(Val {
        tag,
        number: w[at + 1],
    })
}

// The numbers of the two topmost values, the deeper one first, where both are there and not emptied.
pub fn read_two(w: &[u32], h: Head, c: Cursor) -> Option<(u32, u32)>
    requires { HeadFits h w.now c }
    ensures { TwoRead w.now h c result }
{
    if c.pending < 2 {
        return None;
    }
    let at = free(h, c) - 4;
    if (w[at] == 0) | (w[at + 2] == 0) {
        return None;
    }
    Some((w[at + 1], w[at + 3]))
}
