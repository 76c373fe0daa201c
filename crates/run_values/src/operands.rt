// Operands read.
ghost use Rattle.std.specs.Prelude.{◌≡◌};
ghost use Rattle.run_store.specs.StoreCode.{value_at, top_at};
ghost use Rattle.run_values.specs.ValuesCode.{empty_two};

use run_store::head::Head;
use run_store::values::value;

// One of the two operands is emptied.
pub fn two_empty(w: &[u32], h: Head) -> bool
    ensures { result ≡ empty_two w.now h }
{
    let x = value(w, h.top(2));
    let y = value(w, h.top(1));
    (x.tag == 0) | (y.tag == 0)
}

// The number of the value n below the next free one.
pub fn number(w: &[u32], h: Head, n: u16) -> u32
    ensures { result ≡ (value_at w.now (top_at h n)).number }
{
    let v = value(w, h.top(n));
    v.number
}
