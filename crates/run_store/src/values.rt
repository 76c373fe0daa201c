// Words and values of the work store. A read past the end gives 0 and a write past it does nothing, so that no
// function here asks anything of its caller.
ghost use Rattle.std.specs.Prelude.{◌≡◌, ◌+◌, ◌%◌, get_or, set};
ghost use Rattle.run_store.specs.StoreCode.{value_at, put_value};

// A value as the store has it: its tag and its number (docs/LAYOUT.md).
#[derive(Clone, Copy)]
pub struct Val {
    pub tag: u32,
    pub number: u32,
}

// The emptied value.
pub fn empty() -> Val
    ensures { result ≡ record { tag = 0; number = 0 } }
{
    Val { tag: 0, number: 0 }
}

// The number's lowest 32 bits.
pub fn low(x: usize) -> u32
    ensures { result ≡ x % 4294967296 }
{
    (x % 4294967296) as u32
}

// The word at an index, 0 past the end.
pub fn get(w: &[u32], at: usize) -> u32
    ensures { result ≡ get_or w.now at 0 }
{
    slices::at_or(w, at, 0)
}

// A word written.
pub fn put(w: &mut [u32], at: usize, x: u32)
    ensures { w.new ≡ set w.old at x }
{
    slices::put(w, at, x);
}

pub fn value(w: &[u32], at: usize) -> Val
    ensures { result ≡ value_at w.now at }
{
    if at < w.len() {
        return Val {
            tag: w[at],
            number: get(w, at + 1),
        };
    }
    empty()
}

pub fn put_value(w: &mut [u32], at: usize, v: Val)
    ensures { w.new ≡ put_value w.old at v }
{
    if at < w.len() {
        put(w, at, v.tag);
        put(w, at + 1, v.number);
    }
}
