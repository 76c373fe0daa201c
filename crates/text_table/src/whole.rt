// The whole table.
ghost use Rattle.std.specs.Prelude.{◌≡◌, ◌≤◌, ◌<◌, length};
ghost use Rattle.lists.specs.Lists.{put_from};
ghost use Rattle.text.specs.Tree.{Program};
ghost use Rattle.text.specs.Statement.{text_table};
ghost use Rattle.text_code.specs.KeptCode.{CodeKept};
ghost use Rattle.text_put.specs.TableCode.{Writes};
ghost use Rattle.text_put.specs.Measures.{TableText, Measures};
ghost use Rattle.text_table.specs.WrittenCode.{head_words};

use crate::code::{offset_of, put_kept, put_others};
use table::words::word_at;
use text_methods::methods::Methods;
use text_put::words::{put_pair, put_pairs, put_rows};

// The words before the code.
fn put_head(
    main: usize,
    count: usize,
    instructions: usize,
    lengths: &[u16],
    rows: &[u16],
    table: &mut [u16],
) -> usize
    requires { (length rows.now ≡ 576) × (count ≤ 32) × (main < 32) }
    ensures { Writes table.old 0
        (head_words count instructions lengths.now rows.now main) table.new result }
{
    let i = put_pair(table, 0, count, instructions);
    let j = put_pairs(lengths, main, count, table, i);
    put_rows(rows, main, count, table, j)
}

// The table of a text that is refused neither by 30, 31 nor 32, from the lengths, rows and code of its methods, kept in
// text order, and from how many methods and instructions it has; the answer is how many words the table has.
pub fn write_table(
    methods: &Methods<'_>,
    count: usize,
    instructions: usize,
    lengths: &[u16],
    rows: &[u16],
    kept: &[usize],
    table: &mut [u16],
) -> usize
    requires { (length rows.now ≡ 576) × (8192 ≤ length kept.now) }
    ensures { (ns : Program) → TableText methods.now.text.now ns
        → Measures ns count instructions lengths.now rows.now
        → CodeKept ns count lengths.now kept.now
        → (table.new ≡ put_from table.old 0 (text_table ns)) × (result ≡ length (text_table ns)) }
{
    let Ok(m) = methods.find_main() else {
        return 0;
    };
    let main = m.index;
    if 32 < count {
        return 0;
    }
    if 31 < main {
        return 0;
    }
    let i = put_head(main, count, instructions, lengths, rows, table);
    let from = offset_of(lengths, main);
    let long = word_at(lengths, main);
    let j = put_kept(methods, main, false, kept, from, long, table, i);
    put_others(methods, main, count, lengths, kept, table, j)
}
