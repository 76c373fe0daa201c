// The code of a text's table, put from the buffer in which the code of all methods is kept in text order. The methods
// that it calls are found by the index of the text's methods.
ghost use Rattle.std.specs.Prelude.{◌≡◌, cond, [], ◌+◌, ◌*◌, ◌≤◌, ◌<◌, length, drop};
ghost use Rattle.text.specs.Tree.{Program, main_first, without_main};
ghost use Rattle.text.specs.Translation.{program_code, code_words};
ghost use Rattle.text_code.specs.KeptCode.{offset_in, CodeKept};
ghost use Rattle.text_put.specs.TableCode.{Writes, called_at, code_to};
ghost use Rattle.text_table.specs.WrittenCode.{Writing, Lengths};

use table::words::word_at;
use text_methods::methods::Methods;
use text_put::code::put_code;

// How many instructions the methods before the one of index k have.
pub fn offset_of(lengths: &[u16], k: usize) -> usize
    requires { k < 32 }
    ensures { (result ≡ offset_in lengths.now k) × (result < 4000000) }
{
    let mut n = 0;
    for i in 0..k {
        n += word_at(lengths, i);
    }
    n
}

// The code that is kept from instruction `from` on, so many instructions of it, unless it is to be left out or a table
// has no room for it.
pub fn put_kept(
    methods: &Methods<'_>,
    main: usize,
    leave: bool,
    kept: &[usize],
    from: usize,
    long: usize,
    table: &mut [u16],
    at: usize,
) -> usize
    requires { (from < 4000000) × (long < 65536) × (8192 ≤ length kept.now) }
    ensures { (from + long ≤ 4096 → at < 20000 → Writes table.old at
        (cond leave [] (code_to (called_at methods.now.text.now main) (drop (2 * from) kept.now) long))
        table.new result) × (at < 30000 → result < 30000) }
{
    if leave {
        return at;
    }
    if 4096 < from + long {
        return at;
    }
    if 20000 <= at {
        return at;
    }
    let part = &kept[2 * from..2 * from + 2 * long];
    put_code(methods, main, part, long, table, at)
}

// The code of the methods that are not main, in text order; `count` is how many methods there are.
pub fn put_others(
    methods: &Methods<'_>,
    main: usize,
    count: usize,
    lengths: &[u16],
    kept: &[usize],
    table: &mut [u16],
    at: usize,
) -> usize
    requires { (count ≤ 32) × (at < 30000) × (8192 ≤ length kept.now) }
    ensures { (ns : Program) → Writing methods.now.text.now ns main → count ≡ length ns → Lengths ns lengths.now
        → CodeKept ns count lengths.now kept.now → at ≤ 9000
        → Writes table.old at (code_words (program_code (main_first ns) (without_main ns)))
        table.new result }
{
    let mut from = 0;
    let mut i = at;
    for k in 0..count {
        let long = word_at(lengths, k);
        i = put_kept(methods, main, k == main, kept, from, long, table, i);
        from += long;
    }
    i
}
