// Words of a program table.
ghost use Rattle.std.specs.Prelude.{◌≡◌, ◌<◌};
ghost use Rattle.table.specs.Table.{word};

// Word `at` of the table, 0 past its end, so that no caller has to know the table's length.
pub fn word_at(p: &[u16], at: usize) -> usize
    ensures { (result ≡ word p.now at) × (result < 65536) }
{
    slices::at_or(p, at, 0) as usize
}
