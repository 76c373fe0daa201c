// The holder of a qubit by the lines of a trace: any words, any number of lines, any qubit number. The lines are read
// from the last one backwards, up to the line that decides.
ghost use Rattle.std.specs.Prelude.{◌≡◌, ◌≤◌, length};
ghost use Rattle.std.proofs.Math.Option.{get_or};
ghost use Rattle.trace.specs.Trace.{lines_of, look_up, held, found, decides, count_read};
ghost use Rattle.trace.specs.ReadCode.{as_line, named};

use super::read::{line_at, line_count};
use trace_lines::TraceLine;

// The answer: the holder, if there is one, and how many lines were read.
#[derive(Drop)]
pub struct QubitHolder {
    pub holder: Option<u16>,
    pub read: usize,
}

// Whether a line decides who holds qubit q. Kind 1 is the making of a qubit, kind 6 a giving, in which thing 3 is a
// qubit.
fn is_deciding(l: TraceLine, q: u16) -> bool
    ensures { result ≡ decides q (as_line l) }
{
    match l.kind {
        1 => l.a == q,
        6 => (l.b == 3) & (l.c == q),
        _ => false,
    }
}

// The holder that a line names which decides.
#[tactic(auto, unfolding(crate::specs::ReadCode::named))]
fn holder_named(l: TraceLine) -> u16
    ensures { result ≡ named (as_line l) }
{
    if l.kind == 1 { l.process } else { l.a }
}

// The answer by the first n lines, where there are n. After line `at`, which is the one that is read, none decides.
fn holder_back(trace: &[u16], n: usize, q: u16) -> QubitHolder
    requires { n ≤ length (lines_of trace.now) }
    ensures { (found result.holder ≡ held trace.now n q) × (result.read ≡ count_read trace.now n q) }
{
    for at in (0..n).rev() {
        let l = line_at(trace, at);
        if is_deciding(l, q) {
            return QubitHolder {
                holder: Some(holder_named(l)),
                read: n - at,
            };
        }
    }
    QubitHolder {
        holder: None,
        read: n,
    }
}

// The answer by the first k lines, all if there are fewer.
#[tactic(auto, unfolding(crate::specs::Trace::look_up, crate::specs::Trace::held))]
pub fn qubit_holder(trace: &[u16], k: usize, qubit: u16) -> QubitHolder
    ensures { (found result.holder ≡ held trace.now k qubit)
        × (get_or (found result.holder) 65535 ≡ look_up trace.now k qubit)
        × (result.read ≡ count_read trace.now k qubit) }
{
    let n = line_count(trace);
    if k < n {
        return holder_back(trace, k, qubit);
    }
    holder_back(trace, n, qubit)
}
