// Text written into a lent buffer. A write past its end does nothing, so that no function here asks anything of its
// caller but an index that can be computed with: each leaves the functions under it room for what they add.
ghost use Rattle.std.specs.Prelude.{◌≡◌, [], ◌∷◌, ◌+◌, ◌<◌, length};
ghost use Rattle.trace.specs.ReadCode.{as_line};
ghost use Rattle.print_format.specs.Format.{decimal, spaced, column, columns_used, line_text, refused_text};
ghost use Rattle.lists.specs.Lists.{put_from};
ghost use Rattle.print_lines.specs.TextsCode.{head_text, columns_text, end_text};

use slices::{at_or, put};
use trace_lines::TraceLine;

#[tactic(auto, unfolding(lists::specs::Lists::put_from))]
fn put_byte(out: &mut [u8], at: usize, b: u8) -> usize
    requires { at < 9000000000 }
    ensures { (out.new ≡ put_from out.old at (b ∷ [])) × (result ≡ at + length (b ∷ [])) }
{
    put(out, at, b);
    at + 1
}

// Bytes one after the other.
fn put_bytes(out: &mut [u8], at: usize, bytes: &[u8]) -> usize
    requires { at + length bytes.now < 9000000000 }
    ensures { (out.new ≡ put_from out.old at bytes.now) × (result ≡ at + length bytes.now) }
{
    let mut end = at;
    for b in bytes {
        end = put_byte(out, end, *b);
    }
    end
}

// The digits before the last one first: at most 20 calls deep.
pub fn put_number(out: &mut [u8], at: usize, n: u64) -> usize
    requires { at < 8000000000 }
    ensures { (out.new ≡ put_from out.old at (decimal n)) × (result ≡ at + length (decimal n)) }
{
    if n < 10 {
        return put_byte(out, at, b'0' + (n as u8));
    }
    let last = put_number(out, at, n / 10);
    put_byte(out, last, b'0' + ((n % 10) as u8))
}

// A blank and a number.
pub fn put_spaced(out: &mut [u8], at: usize, n: u64) -> usize
    requires { at < 7000000000 }
    ensures { (out.new ≡ put_from out.old at (spaced n)) × (result ≡ at + length (spaced n)) }
{
    let i = put_byte(out, at, b' ');
    put_number(out, i, n)
}

// A column that is not used prints as "-".
pub fn put_column(out: &mut [u8], at: usize, used: bool, n: u64) -> usize
    requires { at < 6000000000 }
    ensures { (out.new ≡ put_from out.old at (column used n))
        × (result ≡ at + length (column used n)) }
{
    if used {
        return put_spaced(out, at, n);
    }
    put_bytes(out, at, b" -")
}

// The columns that every line has.
fn put_head(out: &mut [u8], at: usize, l: TraceLine) -> usize
    requires { at < 5000000000 }
    ensures { (out.new ≡ put_from out.old at (head_text l))
        × (result ≡ at + length (head_text l)) }
{
    let i = put_number(out, at, l.entry as u64);
    let j = put_spaced(out, i, l.process as u64);
    put_spaced(out, j, l.kind as u64)
}

// The columns a, b and c, of which so many are used.
fn put_columns(out: &mut [u8], at: usize, used: u16, l: TraceLine) -> usize
    requires { at < 5000000000 }
    ensures { (out.new ≡ put_from out.old at (columns_text used l))
        × (result ≡ at + length (columns_text used l)) }
{
    let i = put_column(out, at, 0 < used, l.a as u64);
    let j = put_column(out, i, 1 < used, l.b as u64);
    put_column(out, j, 2 < used, l.c as u64)
}

// How many of the columns a, b and c a line uses, by its kind: a gate on one qubit, kind 3 with a from 1 to 5, has no
// c.
pub fn columns_used(l: TraceLine) -> u16
    ensures { result ≡ columns_used (as_line l) }
{
    let by_kind: [u16; 11] = [0, 1, 1, 3, 2, 3, 3, 3, 2, 0, 1];
    if (l.kind == 3) & (l.a <= 5) {
        return 2;
    }
    at_or(&by_kind, l.kind as usize, 0)
}

// One line of a trace, with its newline.
pub fn put_line(out: &mut [u8], at: usize, l: TraceLine) -> usize
    requires { at < 4294967296 }
    ensures { (out.new ≡ put_from out.old at (line_text (as_line l)))
        × (result ≡ at + length (line_text (as_line l))) }
{
    let i = put_head(out, at, l);
    let j = put_columns(out, i, columns_used(l), l);
    put_byte(out, j, b'\n')
}

// The one line that is printed for a refusal.
pub fn put_refused(out: &mut [u8], at: usize, n: u64, place: u64) -> usize
    requires { at < 4294967296 }
    ensures { (out.new ≡ put_from out.old at (refused_text n place))
        × (result ≡ at + length (refused_text n place)) }
{
    let i = put_bytes(out, at, b"refused");
    let j = put_spaced(out, i, n);
    let k = put_spaced(out, j, place);
    put_byte(out, k, b'\n')
}

// The last line of a run: "end, entries, lines, outcomes", e being the number of the end.
pub fn put_end(out: &mut [u8], at: usize, e: u64, k: u64, l: u64, o: u64) -> usize
    requires { at < 4294967296 }
    ensures { (out.new ≡ put_from out.old at (end_text e k l o))
        × (result ≡ at + length (end_text e k l o)) }
{
    let i0 = put_bytes(out, at, b"end");
    let i1 = put_spaced(out, i0, e);
    let i2 = put_spaced(out, i1, k);
    let i3 = put_spaced(out, i2, l);
    let i4 = put_spaced(out, i3, o);
    put_byte(out, i4, b'\n')
}
