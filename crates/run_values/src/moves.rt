// Values pushed, taken and stored.
ghost use Rattle.std.specs.Prelude.{◌≡◌};
ghost use Rattle.run_values.specs.ValuesCode.{push_on, on_top, drop_top, drop_to, over_two, in_slot};

use run_store::head::{Head, put_top};
use run_store::values::{Val, empty, put_value};

// A value pushed.
pub fn push(w: &mut [u32], h: Head, v: Val)
    ensures { w.new ≡ push_on w.old h v }
{
    put_value(w, h.top(0), v);
    put_top(w, h.push().step());
}

// The top value replaced.
pub fn replace(w: &mut [u32], h: Head, v: Val)
    ensures { w.new ≡ on_top w.old h v }
{
    put_value(w, h.top(1), v);
    put_top(w, h.step());
}

// The top value off.
pub fn discard(w: &mut [u32], h: Head)
    ensures { w.new ≡ drop_top w.old h }
{
    put_value(w, h.top(1), empty());
    put_top(w, h.pop().step());
}

// The top value off, and the frame at instruction `to`.
pub fn discard_to(w: &mut [u32], h: Head, to: u32)
    ensures { w.new ≡ drop_to w.old h to }
{
    put_value(w, h.top(1), empty());
    put_top(w, h.pop().to(to));
}

// Two values off, one on.
pub fn replace_two(w: &mut [u32], h: Head, v: Val)
    ensures { w.new ≡ over_two w.old h v }
{
    put_value(w, h.top(1), empty());
    put_value(w, h.top(2), v);
    put_top(w, h.pop().step());
}

// A slot written: CLEAR where v is empty.
pub fn store_slot(w: &mut [u32], h: Head, a: u16, v: Val)
    ensures { w.new ≡ in_slot w.old h a v }
{
    put_value(w, h.slot(a), v);
    put_top(w, h.step());
}
