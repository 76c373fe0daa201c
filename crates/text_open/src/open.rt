// The names declared in the blocks that are open, in a lent slice of three words for each of 1,024: where the name
// starts and ends in the text, and the level of its block. A count of 1,025 says that one did not fit.
ghost use Rattle.std.specs.Prelude.{◌≡◌, ◌∷◌, ◌<◌, ◌≤◌, length};
ghost use Rattle.std.proofs.Math.Seq.{slice};
ghost use Rattle.text_open.specs.OpenCode.{entry_of, open_of, is_this, is_open, leaving, open_after, Turns};

use slices::at_or;
use text_roles::level::level_of;
use text_tokens::bytes::same_word;

// Entry j has the name, in a block of this level or a deeper one.
fn is_this(text: &[u8], words: &[usize], j: usize, least: usize, start: usize, end: usize) -> bool
    requires { j < 1024 }
    ensures { result ≡ is_this least (slice start end text.now)
        (entry_of text.now words.now j) }
{
    let level = at_or(words, 3 * j + 2, 0);
    if level < least {
        return false;
    }
    let other = at_or(words, 3 * j, 0);
    let stop = at_or(words, 3 * j + 1, 0);
    same_word(text, start, end, other, stop)
}

// One of the n entries has it.
pub fn is_open(
    text: &[u8],
    words: &[usize],
    n: usize,
    least: usize,
    start: usize,
    end: usize,
) -> bool
    requires { n ≤ 1024 }
    ensures { result ≡ is_open least (slice start end text.now)
        (open_of text.now words.now n) }
{
    for j in (0..n).rev() {
        if is_this(text, words, j, least, start, end) {
            return true;
        }
    }
    false
}

// A name more, of a block of this level.
fn push(words: &mut [usize], n: usize, start: usize, end: usize, level: usize) -> usize
    requires { length words.old ≡ 3072 }
    ensures { Turns (λ text ds. record { level = level; bytes = slice start end text } ∷ ds)
        words.old n words.new result }
{
    if 1024 <= n {
        return 1025;
    }
    words[3 * n] = start;
    words[3 * n + 1] = end;
    words[3 * n + 2] = level;
    n + 1
}

// A block of this level is left.
fn pop(words: &[usize], n: usize, level: usize) -> usize
    requires { n ≤ 1025 }
    ensures { Turns (λ text ds. leaving level ds) words.now n words.now result }
{
    if 1024 < n {
        return n;
    }
    for j in (0..n).rev() {
        let top = at_or(words, 3 * j + 2, 0);
        if top < level {
            return j + 1;
        }
    }
    0
}

// The entries after a token of role r.
pub fn open_after(
    words: &mut [usize],
    n: usize,
    braces: usize,
    r: u8,
    start: usize,
    end: usize,
) -> usize
    requires { (length words.old ≡ 3072) × (n ≤ 1025) }
    ensures { Turns (λ text ds. open_after braces r (slice start end text) ds)
        words.old n words.new result }
{
    if r == 1 {
        return 0;
    }
    if r == 2 {
        let level = level_of(braces);
        return push(words, n, start, end, level);
    }
    if (r == 7) | (r == 8) {
        return pop(words, n, braces);
    }
    n
}
