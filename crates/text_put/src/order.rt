// Main is method 0 of a table; the other methods follow in text order. `main` is main's index in text order.
ghost use Rattle.std.specs.Prelude.{◌≡◌};
ghost use Rattle.text_put.specs.TableCode.{index_in, number_in};

// The index in text order of the table's method k.
pub fn index_in(main: usize, k: usize) -> usize
    ensures { result ≡ index_in main k }
{
    if k == 0 {
        return main;
    }
    if k <= main {
        return k - 1;
    }
    k
}

// The number in the table of the method of index i.
pub fn number_in(main: usize, i: usize) -> usize
    ensures { result ≡ number_in main i }
{
    if i == main {
        return 0;
    }
    if i < main {
        return i + 1;
    }
    i
}
