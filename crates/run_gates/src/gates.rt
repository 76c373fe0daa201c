// GATE.
ghost use Rattle.std.specs.Prelude.{◌≡◌, ◌%◌};
ghost use Rattle.run_store.specs.StoreCode.{value_at, top_at};
ghost use Rattle.run_gates.specs.GatesCode.{after_event, drop_two, gate_one, gate_two, gate_op};

use super::event::{EventResult, fault, line};
use super::faults::{EMPTY, ONE_QUBIT_TWICE};
use run_store::head::{Head, put_top};
use run_store::references::QubitNo;
use run_store::values::{empty, put_value, value};
use run_values::moves::discard;
use run_values::operands::{number, two_empty};

// The number of the value n below the next free one, as a line has it.
pub fn qubit_no(w: &[u32], h: Head, n: u16) -> QubitNo
    ensures { result.0 ≡ (value_at w.now (top_at h n)).number % 65536 }
{
    QubitNo((number(w, h, n) % 65536) as u16)
}

// Two values off.
pub fn discard_two(w: &mut [u32], h: Head)
    ensures { w.new ≡ drop_two w.old h }
{
    let deeper = h.pop();
    put_value(w, h.top(1), empty());
    put_value(w, deeper.top(1), empty());
    put_top(w, deeper.pop().step());
}

pub fn gate_one(w: &mut [u32], h: Head, a: u16) -> EventResult
    ensures { after_event result w.new ≡ gate_one w.old h a }
{
    let v = value(w, h.top(1));
    if v.tag == 0 {
        return fault(EMPTY);
    }
    let q = qubit_no(w, h, 1);
    discard(w, h);
    line(3, a, q.0, 65535)
}

// The deeper qubit comes first; "27 a two-qubit gate on one qubit".
pub fn gate_two(w: &mut [u32], h: Head, a: u16) -> EventResult
    ensures { after_event result w.new ≡ gate_two w.old h a }
{
    if two_empty(w, h) {
        return fault(EMPTY);
    }
    let deeper = qubit_no(w, h, 2);
    let q = qubit_no(w, h, 1);
    if deeper.0 == q.0 {
        return fault(ONE_QUBIT_TWICE);
    }
    discard_two(w, h);
    line(3, a, deeper.0, q.0)
}

// "one qubit off for 1 to 5, else two".
pub fn op_gate(w: &mut [u32], h: Head, a: u16) -> EventResult
    ensures { after_event result w.new ≡ gate_op w.old h a }
{
    if a <= 5 {
        return gate_one(w, h, a);
    }
    gate_two(w, h, a)
}
