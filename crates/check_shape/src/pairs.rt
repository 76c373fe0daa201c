// Question 2.
ghost use Rattle.std.specs.Prelude.{◌≡◌, ◌&&◌, ◌≤◌, ◌<◌, eqb, leb};
ghost use Rattle.lists.specs.Lists.{first_place};
ghost use Rattle.table.specs.Table.{offset_of, length_of, end_of};
ghost use Rattle.table.specs.Questions.{start_of, pair_kept};

use table::words::word_at;

fn pair_kept(p: &[u16], m: usize, start: usize) -> bool
    requires { m ≤ 32 }
    ensures { result ≡ (eqb (offset_of p.now m) start && leb 1 (length_of p.now m)) }
{
    (word_at(p, 2 + 2 * m) == start) & (1 <= word_at(p, 3 + 2 * m))
}

fn end_of(p: &[u16], m: usize) -> usize
    requires { m ≤ 32 }
    ensures { result ≡ end_of p.now m }
{
    word_at(p, 2 + 2 * m) + word_at(p, 3 + 2 * m)
}

// The first of `count` methods whose pair is at fault.
pub fn first_pair(p: &[u16], count: usize) -> Option<usize>
    requires { count ≤ 32 }
    ensures { result ≡ first_place (pair_kept p.now) count }
{
    let mut start = 0;
    for m in 0..count {
        if !pair_kept(p, m, start) {
            return Some(m);
        }
        start = end_of(p, m);
    }
    None
}

// Whether the methods end where the instructions do.
pub fn sum_kept(p: &[u16], count: usize, n: usize) -> bool
    requires { (1 ≤ count) × (count ≤ 32) }
    ensures { result ≡ eqb (start_of p.now count) n }
{
    end_of(p, count - 1) == n
}
