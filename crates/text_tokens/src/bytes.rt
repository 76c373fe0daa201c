// Bytes of a text, their classes, and whether two parts of texts have the same bytes.
ghost use Rattle.std.specs.Prelude.{◌≡◌, ◌-◌, get_or, length};
ghost use Rattle.std.proofs.Math.Seq.{slice};
ghost use Rattle.lists.specs.Lists.{same};
ghost use Rattle.text_parse.specs.Tokens.{is_white, is_digit, is_letter};

pub fn byte_at(text: &[u8], i: usize) -> u8
    ensures { result ≡ get_or text.now i 0 }
{
    if i < text.len() {
        return text[i];
    }
    0
}

// "White space: bytes 32, 9, 10, 13."
pub fn is_white(b: u8) -> bool
    ensures { result ≡ is_white b }
{
    (b == 32) | ((b == 9) | ((b == 10) | (b == 13)))
}

pub fn is_digit(b: u8) -> bool
    ensures { result ≡ is_digit b }
{
    (48 <= b) & (b <= 57)
}

// A to Z, a to z, and _
pub fn is_letter(b: u8) -> bool
    ensures { result ≡ is_letter b }
{
    ((65 <= b) & (b <= 90)) | (((97 <= b) & (b <= 122)) | (b == 95))
}

// 0 where it would be negative
fn difference(a: usize, b: usize) -> usize
    ensures { result ≡ a - b }
{
    if a <= b {
        return 0;
    }
    a - b
}

// How many bytes the text has from a place up to another.
pub fn size(text: &[u8], start: usize, end: usize) -> usize
    ensures { result ≡ length (slice start end text.now) }
{
    if end <= text.len() {
        return difference(end, start);
    }
    difference(text.len(), start)
}

// A part of one text and a part of another have the same bytes.
fn same_bytes(a: &[u8], from: usize, to: usize, b: &[u8], start: usize, end: usize) -> bool
    ensures { result ≡ same (slice from to a.now) (slice start end b.now) }
{
    let n = size(a, from, to);
    if n != size(b, start, end) {
        return false;
    }
    let mut k = 0;
    while k < n {
        if a[from + k] != b[start + k] {
            return false;
        }
        k += 1;
    }
    true
}

// A part of the text is this word.
pub fn is_word(text: &[u8], start: usize, end: usize, word: &[u8]) -> bool
    ensures { result ≡ same (slice start end text.now) word.now }
{
    same_bytes(text, start, end, word, 0, word.len())
}

// Two parts of the text have the same bytes.
pub fn same_word(text: &[u8], start: usize, end: usize, other: usize, stop: usize) -> bool
    ensures { result ≡ same (slice start end text.now) (slice other stop text.now) }
{
    same_bytes(text, start, end, text, other, stop)
}
