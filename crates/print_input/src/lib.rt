// The input file: "at most 65,536 bytes: three pairs (offset, length) of 32-bit numbers, lowest byte first". Answered
// are whether a file is well built, the numbers in it, and the words of a part of it, for any bytes: a byte past the
// end reads as 0, so that nothing is asked of the caller.
#![tactic(auto)]

ghost use Rattle.std.specs.Prelude.{◌≡◌, ◌+◌, ◌*◌, ◌<◌, get_or, take, drop, length};
ghost use Rattle.print_format.specs.Format.{number_at, well_built, words_of};
ghost use Rattle.lists.specs.Lists.{put_from};

use slices::{at_or, put};

// Two bytes, the lowest first.
fn two_at(bytes: &[u8], i: usize) -> u16
    requires { i < 8589934592 }
    ensures { result ≡ get_or bytes.now i 0 + 256 * get_or bytes.now (i + 1) 0 }
{
    (at_or(bytes, i, 0) as u16) + 256 * (at_or(bytes, i + 1, 0) as u16)
}

// The number at byte i.
pub fn number_at(bytes: &[u8], i: u32) -> u64
    ensures { (result ≡ number_at bytes.now i) × (result < 4294967296) }
{
    let at = i as usize;
    (two_at(bytes, at) as u64) + 65536 * (two_at(bytes, at + 2) as u64)
}

// "adjacent from byte 24 to the file's end"; an odd program length is no program.
pub fn well_built(bytes: &[u8]) -> bool
    ensures { result ≡ well_built bytes.now }
{
    let n = bytes.len();
    let o0 = number_at(bytes, 0);
    let l0 = number_at(bytes, 4);
    let o1 = number_at(bytes, 8);
    let l1 = number_at(bytes, 12);
    let o2 = number_at(bytes, 16);
    let l2 = number_at(bytes, 20);
    let size = (24 <= n) & (n <= 65536);
    let adjacent = (o0 == 24) & (o1 == o0 + l0) & (o2 == o1 + l1) & ((n as u64) == o2 + l2);
    size & adjacent & (l0 % 2 == 0)
}

// How many words the n bytes from `from` on make, as far as there are bytes.
fn words_in(bytes: &[u8], from: usize, n: usize) -> usize
    ensures { result ≡ length (words_of (take n (drop from bytes.now))) }
{
    n.min(bytes.len().saturating_sub(from)) / 2
}

// The words of the n bytes from `from` on, as far as there are bytes, written from the start of a lent buffer: the
// answer is how many they are. Those past its end are not written.
#[tactic(auto, using(crate::proofs::FileLaws::words_few))]
pub fn put_words(bytes: &[u8], from: u32, n: u32, words: &mut [u16]) -> usize
    ensures { (words.new ≡ put_from words.old 0 (words_of (take n (drop from bytes.now))))
        × (result ≡ length (words_of (take n (drop from bytes.now)))) }
{
    let start = from as usize;
    let k = words_in(bytes, start, n as usize);
    for i in 0..k {
        put(words, i, two_at(bytes, start + 2 * i));
    }
    k
}
