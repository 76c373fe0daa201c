// The table of two methods in which an instruction is judged.
ghost use Rattle.std.specs.Prelude.{◌≡◌, ◌+◌, ◌<◌, ◌≤◌, length};
ghost use Rattle.text_judge.specs.RowsCode.{copied, two_rows};

// A row copied among words, from word `at` on.
pub fn put_row(words: &mut [u16], at: usize, row: &[u16])
    requires { (length row.now ≡ 18) × (at + 18 ≤ length words.old) }
    ensures { words.new ≡ copied words.old at row.now 18 }
{
    words[at..at + 18].copy_from_slice(row);
}

// Method 0 has the own row and so many instructions, method 1 the row of the one that is called.
pub fn two_rows(own: &[u16], callee: &[u16], long: usize) -> [u16; 44]
    requires { (length own.now ≡ 18) × (length callee.now ≡ 18) × (long < 65536) }
    ensures { result ≡ two_rows own.now callee.now long }
{
    let mut table = [0u16; 44];
    table[0] = 2;
    table[1] = 1;
    table[3] = long as u16;
    put_row(&mut table, 24, callee);
    put_row(&mut table, 6, own);
    table
}
