// Question 5: the methods read from first to last with types alone, and the first instruction at fault. Asked is that
// questions 1 to 4 are passed and the targets of jumps marked.
#![tactic(auto)]

ghost use Rattle.std.specs.Prelude.{◌≡◌};
ghost use Rattle.lists.specs.Lists.{first_place};
ghost use Rattle.table.specs.Ops.{op_of};
ghost use Rattle.table.specs.Reading.{reads};
ghost use Rattle.check_types.specs.PendingCode.{result_in};
ghost use Rattle.check_types.specs.ReadOnCode.{read_on, ReadingPoint, FirstFour};

pub mod pending;
pub mod steps;

use check_instructions::owner::Owner;
use check_instructions::words::{arg_at, op_at};
use pending::Pending;
use steps::step;

// Whether the op may be the last of its method.
pub fn closes(op: usize) -> bool
    ensures { result ≡ (op_of op).closes }
{
    (op == 13) | (op == 17)
}

// The pending types after instruction i, or a fault. `target` is its mark.
fn read(p: &[u16], count: usize, o: Owner, i: usize, target: u8, q: Pending) -> Option<Pending>
    requires { ReadingPoint p.now count o i target q }
    ensures { result_in result ≡ read_on p.now i }
{
    let op = op_at(p, count, i);
    let a = arg_at(p, count, i);
    if (target != 0) & (q.count != 0) {
        return None;
    }
    if (i + 1 == o.end) & !closes(op) {
        return None;
    }
    step(p, count, o, op, a, q)
}

// The first of n instructions at fault.
pub fn first_reading(p: &[u16], count: usize, n: usize, targets: &[u8]) -> Option<usize>
    requires { FirstFour p.now count n targets.now }
    ensures { result ≡ first_place (reads p.now) n }
{
    let mut o = Owner::of(p, 0);
    let mut q = Pending::nothing();
    for i in 0..n {
        o = o.at(p, i);
        let Some(next) = read(p, count, o, i, targets[i], q) else {
            return Some(i);
        };
        q = next;
    }
    None
}
