// Names in 251 classes, by their bytes, and what a pass over the names of one class makes of the others.
ghost use Rattle.std.specs.Prelude.{◌≡◌, cond, not, ◌&&◌, ◌<◌, ◌≤◌, eqb, length};
ghost use Rattle.std.proofs.Math.Seq.{slice};
ghost use Rattle.text_open.specs.ClassCode.{mixed, hash_from, in_class, fits_in};

use text_tokens::kinds::END;

fn wide(x: u8) -> usize
    ensures { (result ≡ x) × (result < 256) }
{
    x as usize
}

fn mixed(h: usize, x: usize) -> usize
    requires { (h < 251) × (x < 256) }
    ensures { (result ≡ mixed h x) × (result < 251) }
{
    (31 * h + x) % 251
}

// The class of the name from start up to end.
fn hash(text: &[u8], start: usize, end: usize) -> usize
    requires { (start ≤ end) × (end ≤ length text.now) }
    ensures { result ≡ hash_from 0 (slice start end text.now) }
{
    let mut h = 0;
    for i in start..end {
        h = mixed(h, wide(text[i]));
    }
    h
}

// The pass over all names or over those of this class looks at the name.
pub fn in_class(text: &[u8], start: usize, end: usize, all: bool, class: usize) -> bool
    requires { (start ≤ end) × (end ≤ length text.now) }
    ensures { result ≡ in_class all class (slice start end text.now) }
{
    if all {
        return true;
    }
    let h = hash(text, start, end);
    h == class
}

// The role of a token in faults: a name of another class has none.
pub fn role_if(mine: bool, r: u8) -> u8
    ensures { result ≡ cond mine r 0 }
{
    if mine {
        return r;
    }
    0
}

// Its role in what is declared.
pub fn declared_if(mine: bool, r: u8) -> u8
    ensures { result ≡ cond (eqb r 2 && not mine) 0 r }
{
    if (r == 2) & !mine {
        return 0;
    }
    r
}

pub fn keeps(all: bool, n: usize) -> bool
    ensures { result ≡ fits_in all n }
{
    !(all & (1024 < n))
}

// Where a pass over all names has come to one that does not fit, the text ends for it.
pub fn kind_if(kept: bool, kind: u8) -> u8
    ensures { result ≡ cond kept kind 32 }
{
    if kept {
        return kind;
    }
    END
}
