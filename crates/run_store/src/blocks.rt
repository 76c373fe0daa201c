// Several values at once: arguments looked through and moved, a frame's words cleared.
ghost use Rattle.std.specs.Prelude.{◌≡◌, ◌+◌, ◌-◌, ◌*◌, ◌<◌, ◌≤◌, length};
ghost use Rattle.run_store.specs.StoreCode.{empty_down, move_one, moved_down, cleared_from};

use super::values::{empty, get, put, put_value, value};

// Where the value stands that is j below the one at `top`.
pub fn below(top: usize, j: u16) -> usize
    ensures { result ≡ top - 2 * j }
{
    let down = 2 * (j as usize);
    if down <= top {
        return top - down;
    }
    0
}

// One of the n values from `top` down is emptied.
pub fn any_empty(w: &[u32], top: usize, n: u16) -> bool
    ensures { result ≡ empty_down w.now top n }
{
    for j in 0..n {
        if get(w, below(top, j)) == 0 {
            return true;
        }
    }
    false
}

// A value moved, its old place emptied.
pub fn move_one(w: &mut [u32], from: usize, to: usize)
    ensures { w.new ≡ move_one w.old from to }
{
    let v = value(w, from);
    put_value(w, to, v);
    put_value(w, from, empty());
}

// n values from `top` down moved to the places from `to` up, in their order.
pub fn move_down(w: &mut [u32], top: usize, to: usize, n: u16)
    requires { to < 4294967296 }
    ensures { w.new ≡ moved_down w.old top to n n }
{
    for j in 0..n {
        move_one(w, below(top, j), to + 2 * ((n - 1 - j) as usize));
    }
}

// n words from `from` up made 0, all of them within w: no test for each word, so that the loop is compiled to one fill.
fn clear_within(w: &mut [u32], from: usize, n: usize)
    requires { from + n ≤ length w.old }
    ensures { w.new ≡ cleared_from w.old from n }
{
    for i in 0..n {
        w[from + i] = 0;
    }
}

// n words from `from` up made 0, as far as w reaches.
pub fn clear(w: &mut [u32], from: usize, n: u16)
    requires { from < 1099511627776 }
    ensures { w.new ≡ cleared_from w.old from n }
{
    let wanted = n as usize;
    if from + wanted <= w.len() {
        clear_within(w, from, wanted);
        return;
    }
    if from < w.len() {
        clear_within(w, from, w.len() - from);
    }
}
