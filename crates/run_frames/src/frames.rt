// CALL and RET of a process whose head is put back: its words are changed as the op changes them, or not at all. The
// words are known to be there, so that nothing is tested but what the table does not say: the number of frames, the
// number of values, and that none of them is emptied.
ghost use Rattle.std.specs.Prelude.{◌≡◌, true, false, ◌+◌, ◌*◌, ◌<◌, ◌≤◌, length, get_or, eqb};
ghost use Rattle.table.specs.Table.{methods, params_of, return_of};
ghost use Rattle.table.proofs.Accepted.{Kept};
ghost use Rattle.run_store.specs.StoreCode.{head_of, put_top, empty_down, move_one, moved_down, cleared_from};
ghost use Rattle.run_ops.specs.OpsCode.{begun, closed, handed, call_op, ret_op};
ghost use Rattle.run_frames.specs.FramesCode.{Does};

use run_cursor::cursor::write;
use run_store::blocks::clear;
use run_store::head::Head;
use run_store::values::{Val, empty, low, put, put_value, value};

// One of the n values from `top` down is emptied.
fn lacks(w: &[u32], top: usize, n: u16) -> bool
    requires { (top < length w.now) × (2 * n ≤ top) }
    ensures { result ≡ empty_down w.now top n }
{
    for j in 0..n {
        if w[top - 2 * (j as usize)] == 0 {
            return true;
        }
    }
    false
}

// A value moved, its old place emptied.
fn move_value(w: &mut [u32], from: usize, to: usize)
    requires { (from + 1 < length w.old) × (to + 1 < length w.old) }
    ensures { w.new ≡ move_one w.old from to }
{
    let v = Val {
        tag: w[from],
        number: w[from + 1],
    };
    write(w, to, v);
    write(w, from, empty());
}

// n values from `top` down moved to the places from `to` up, in their order.
fn move_values(w: &mut [u32], top: usize, to: usize, n: u16)
    requires { (top + 1 < length w.old) × (2 * n ≤ top) × (to + 2 * n ≤ length w.old) × (length w.old ≡ 512) }
    ensures { w.new ≡ moved_down w.old top to n n }
{
    for j in 0..n {
        move_value(w, top - 2 * (j as usize), to + 2 * ((n - 1 - j) as usize));
    }
}

// How many parameters method m has.
fn params_of(p: &[u16], m: u16) -> u16
    requires { Kept p.now × (m < methods p.now) }
    ensures { result ≡ params_of p.now m }
{
    p[2 + 2 * (p[0] as usize) + 18 * (m as usize) + 1]
}

// The head, where the number of frames is one that there can be.
pub fn head_of(w: &[u32]) -> Head
    requires { (length w.now ≡ 512) × (get_or w.now 2 0 ≤ 8) }
    ensures { result ≡ head_of w.now }
{
    let frames = w[2];
    let at = 4 + 4 * (frames as usize);
    Head {
        status: w[0],
        fault: w[1],
        frames,
        method: w[at],
        place: w[at + 1],
        pending: w[at + 2],
    }
}

// The place and the number of pending values of the top frame, put back.
fn put_back(w: &mut [u32], h: Head)
    requires { (length w.old ≡ 512) × (h.frames ≤ 8) }
    ensures { w.new ≡ put_top w.old h }
{
    let at = 4 + 4 * (h.frames as usize);
    w[at + 1] = h.place;
    w[at + 2] = h.pending;
}

// Frame number n begins in method m.
fn begin(p: &[u16], w: &mut [u32], n: u32, m: u16)
    requires { Kept p.now × (m < methods p.now) × (length w.old ≡ 512) × (n ≤ 8) }
    ensures { w.new ≡ begun p.now w.old n m }
{
    let at = 4 + 4 * (n as usize);
    w[at] = m as u32;
    w[at + 1] = p[2 + 2 * (m as usize)] as u32;
    w[2] = n;
}

// CALL: whether it was done. No method has more than 8 parameters; that is tested all the same, so that the compiler
// knows how short the loops over them are.
pub fn call(p: &[u16], w: &mut [u32], h: Head, a: u16) -> bool
    requires { (length w.old ≡ 512) × (h.frames ≤ 8) × (h.pending ≤ 8) × Kept p.now × (a < methods p.now) }
    ensures { Does result (call_op p.now w.old h a) w.old w.new }
{
    if 8 <= h.frames {
        return false;
    }
    let n = params_of(p, a);
    if (h.pending < n as u32) | (8 < n) {
        return false;
    }
    let next = h.frames + 1;
    let top = 46 + 48 * (h.frames as usize) + 2 * (h.pending as usize);
    if lacks(w, top, n) {
        return false;
    }
    move_values(w, top, 16 + 48 * (next as usize), n);
    put_back(w, h.less(n).step());
    begin(p, w, next, a);
    true
}

// The 48 words of a frame made 0. Their number stands here, so that they are compiled to twelve writes and no call.
fn clear_frame(w: &mut [u32], from: usize)
    requires { from + 48 ≤ length w.old }
    ensures { w.new ≡ cleared_from w.old from 48 }
{
    for i in 0..48 {
        w[from + i] = 0;
    }
}

// The top frame closed.
fn close(w: &mut [u32], h: Head)
    requires { (length w.old ≡ 512) × (h.frames ≤ 8) }
    ensures { w.new ≡ closed w.old h }
{
    let n = h.frames as usize;
    clear_frame(w, 16 + 48 * n);
    clear(w, 4 + 4 * n, 3);
    put(w, 2, low(n + 4294967295));
}

// Whether method m returns nothing.
fn is_void(p: &[u16], m: u32) -> bool
    requires { Kept p.now × (m < methods p.now) }
    ensures { result ≡ eqb (return_of p.now m) 0 }
{
    p[2 + 2 * (p[0] as usize) + 18 * (m as usize)] == 0
}

// A value handed to the top frame, which stays where it stands.
fn hand_to(w: &mut [u32], v: Val)
    requires { (length w.old ≡ 512) × (get_or w.old 2 0 ≤ 8) }
    ensures { w.new ≡ handed w.old v }
{
    let h = head_of(w);
    put_value(w, h.top(0), v);
    put_back(w, h.push());
}

// RET of a frame that is not the root: whether it was done.
pub fn ret(p: &[u16], w: &mut [u32], h: Head) -> bool
    requires { (length w.old ≡ 512) × (h.frames ≤ 8) × Kept p.now × (h.method < methods p.now) }
    ensures { Does result (ret_op p.now w.old h) w.old w.new }
{
    if h.frames < 2 {
        return false;
    }
    if is_void(p, h.method) {
        close(w, h);
        return true;
    }
    let v = value(w, h.top(1));
    if v.tag == 0 {
        return false;
    }
    close(w, h);
    hand_to(w, v);
    true
}
