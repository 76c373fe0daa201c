// Giving away: "Every slot and every pending value of the giver, in all frames, that holds the thing is emptied."
ghost use Rattle.std.specs.Prelude.{◌≡◌, ◌+◌, ◌*◌, ◌<◌, ◌≤◌, length};
ghost use Rattle.run_store.specs.StoreCode.{tags_meet, lost_val, emptied_one, emptied_eight, emptied_by};

use super::values::{Val, empty, put_value, value};

// "Giving an end also empties the channel, not the opposite end. Giving a channel empties channel and both ends."
pub fn tags_meet(a: u32, b: u32) -> bool
    ensures { result ≡ tags_meet a b }
{
    if a == b {
        return true;
    }
    if a == 4 {
        return (5 <= b) & (b <= 6);
    }
    if b == 4 {
        return (5 <= a) & (a <= 6);
    }
    false
}

pub fn is_lost(t: Val, v: Val) -> bool
    ensures { result ≡ lost_val t v }
{
    if tags_meet(t.tag, v.tag) {
        return v.number == t.number;
    }
    false
}

// The value at i emptied where it is lost with t.
pub fn empty_one(w: &mut [u32], t: Val, i: usize)
    ensures { w.new ≡ emptied_one w.old t i }
{
    let v = value(w, i);
    if is_lost(t, v) {
        put_value(w, i, empty());
    }
}

// The first n values of a process's part, those lost with t emptied.
pub fn give_away(w: &mut [u32], t: Val, n: u16)
    ensures { w.new ≡ emptied_by w.old t n }
{
    for j in 0..n {
        empty_one(w, t, 64 + 2 * (j as usize));
    }
}

// The value at i emptied where it is this qubit.
fn lose_qubit(w: &mut [u32], number: u32, i: usize)
    requires { i + 1 < length w.old }
    ensures { w.new ≡ emptied_one w.old (record { tag = 3; number = number }) i }
{
    if w[i] == 3 {
        if w[i + 1] == number {
            w[i] = 0;
            w[i + 1] = 0;
        }
    }
}

// Eight values from the one at i on.
fn lose_eight(w: &mut [u32], number: u32, i: usize)
    requires { i + 15 < length w.old }
    ensures { w.new ≡ emptied_eight w.old (record { tag = 3; number = number }) i }
{
    lose_qubit(w, number, i);
    lose_qubit(w, number, i + 2);
    lose_qubit(w, number, i + 4);
    lose_qubit(w, number, i + 6);
    lose_qubit(w, number, i + 8);
    lose_qubit(w, number, i + 10);
    lose_qubit(w, number, i + 12);
    lose_qubit(w, number, i + 14);
}

// `give_away` for a qubit, where the first 8 n values are within the part: a value is a qubit only by its tag, so that
// most values cost one look.
pub fn give_qubit(w: &mut [u32], number: u32, n: u16)
    requires { 64 + 16 * n ≤ length w.old }
    ensures { w.new ≡ emptied_by w.old (record { tag = 3; number = number }) (8 * n) }
{
    for j in 0..n {
        lose_eight(w, number, 64 + 16 * (j as usize));
    }
}
