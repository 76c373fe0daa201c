// Question 3.
ghost use Rattle.std.specs.Prelude.{◌≡◌, ◌≤◌, ◌<◌};
ghost use Rattle.lists.specs.Lists.{first_place, all_below};
ghost use Rattle.table.specs.Table.{methods, row, params_of, is_type};
ghost use Rattle.table.specs.Questions.{slot_kept, row_kept};

use table::words::word_at;

fn is_type(t: usize) -> bool
    ensures { result ≡ is_type t }
{
    (t <= 3) | (((17 <= t) & (t <= 19)) | ((33 <= t) & (t <= 35)))
}

// `at` is where the row of method m starts, and `params` its number of parameters.
fn slot_kept(p: &[u16], m: usize, at: usize, params: usize, s: usize) -> bool
    requires { (at ≡ row p.now m) × (at < 65536) × (params ≡ params_of p.now m) × (s < 16) }
    ensures { result ≡ slot_kept p.now m s }
{
    let t = word_at(p, at + 2 + s);
    is_type(t) & !((s < params) & (t == 0))
}

fn slots_kept(p: &[u16], m: usize, at: usize, params: usize) -> bool
    requires { (at ≡ row p.now m) × (at < 65536) × (params ≡ params_of p.now m) }
    ensures { result ≡ all_below (slot_kept p.now m) 16 }
{
    let mut kept = true;
    for s in 0..16 {
        kept &= slot_kept(p, m, at, params, s);
    }
    kept
}

fn row_kept(p: &[u16], m: usize, at: usize) -> bool
    requires { (at ≡ row p.now m) × (at < 65536) }
    ensures { result ≡ row_kept p.now m }
{
    let returns = word_at(p, at);
    let params = word_at(p, at + 1);
    let slots = slots_kept(p, m, at, params);
    let main = !(m == 0) | ((params == 0) & (returns == 0));
    is_type(returns) & ((params <= 8) & (slots & main))
}

// The first of `count` methods whose row is at fault.
pub fn first_row(p: &[u16], count: usize) -> Option<usize>
    requires { (count ≡ methods p.now) × (count ≤ 32) }
    ensures { result ≡ first_place (row_kept p.now) count }
{
    for m in 0..count {
        if !row_kept(p, m, 2 + 2 * count + 18 * m) {
            return Some(m);
        }
    }
    None
}
