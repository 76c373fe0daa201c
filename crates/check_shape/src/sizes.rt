// Question 1.
ghost use Rattle.std.specs.Prelude.{◌≡◌};
ghost use Rattle.table.specs.Questions.{sizes_kept};

use table::words::word_at;

pub fn sizes_kept(p: &[u16]) -> bool
    ensures { result ≡ sizes_kept p.now }
{
    let m = word_at(p, 0);
    let n = word_at(p, 1);
    ((1 <= m) & (m <= 32)) & (((1 <= n) & (n <= 4096)) & (p.len() == 2 + 20 * m + 2 * n))
}
