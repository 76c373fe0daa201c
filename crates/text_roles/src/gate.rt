// The gate that a name has, where it is a gate's.
ghost use Rattle.std.specs.Prelude.{◌≡◌, cond, false, eqb, ltb};
ghost use Rattle.std.proofs.Math.Seq.{slice};
ghost use Rattle.table.specs.Ops.{gate_qubits};
ghost use Rattle.text.specs.Tree.{numbered, gate_names};

use text_tokens::bytes::is_word;

// The number of the gate of this name, 0 where it is no gate's.
pub fn gate_number(text: &[u8], start: usize, end: usize) -> u8
    ensures { result ≡ numbered 1 (slice start end text.now) gate_names }
{
    if is_word(text, start, end, b"X") {
        return 1;
    }
    if is_word(text, start, end, b"Y") {
        return 2;
    }
    if is_word(text, start, end, b"Z") {
        return 3;
    }
    if is_word(text, start, end, b"H") {
        return 4;
    }
    if is_word(text, start, end, b"S") {
        return 5;
    }
    if is_word(text, start, end, b"CX") {
        return 6;
    }
    if is_word(text, start, end, b"CZ") {
        return 7;
    }
    if is_word(text, start, end, b"SWAP") {
        return 8;
    }
    0
}

// There is such a gate, and it takes n qubits.
pub fn gate_takes(g: u8, n: usize) -> bool
    ensures { result ≡ cond (ltb 0 g) (eqb n (gate_qubits g)) false }
{
    if g == 0 {
        return false;
    }
    if g <= 5 {
        return n == 1;
    }
    n == 2
}
