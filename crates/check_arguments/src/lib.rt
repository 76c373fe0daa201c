// Question 4: the first instruction at fault, by its op and its argument. On the way the jumps' targets are marked, for
// question 5. Asked is that questions 1 and 2 are passed.
#![tactic(auto)]

ghost use Rattle.std.specs.Prelude.{◌≡◌, ◌≤◌, ◌<◌, T, length};
ghost use Rattle.lists.specs.Lists.{first_false, first_place};
ghost use Rattle.table.specs.Table.{methods, instructions};
ghost use Rattle.table.specs.Ops.{op_of};
ghost use Rattle.table.specs.Questions.{instruction_kept};
ghost use Rattle.table.proofs.Accepted.{Sizes, Pairs};
ghost use Rattle.check_arguments.specs.LimitsCode.{limits_for};
ghost use Rattle.check_arguments.specs.MarksCode.{marks, marked};

pub mod ranges;

use check_instructions::owner::Owner;
use check_instructions::words::{arg_at, op_at};
use ranges::{argument_kept, chosen, limits_for};

// A mark at the target of a jump; ops 17 and 18 jump. Of any other op the mark at its own index i is written as it was,
// so that no jump depends on the op.
fn mark(targets: &mut [u8], op: usize, at: usize, i: usize)
    requires { (T (op_of op).jumps → at < length targets.old) × (i < length targets.old) }
    ensures { targets.new ≡ marks op at targets.old }
{
    let jumps = (op == 17) | (op == 18);
    let k = chosen(jumps, at, i);
    let was = targets[k];
    targets[k] = chosen(jumps, 1, was);
}

// `first_instruction` with the limits of the ops.
fn first_beyond(
    p: &[u16],
    count: usize,
    n: usize,
    limits: &[usize; 24],
    targets: &mut [u8],
) -> Option<usize>
    requires { Sizes p.now × Pairs p.now × (count ≡ methods p.now) × (n ≡ instructions p.now)
        × (4096 ≤ length targets.old) × (limits.now ≡ limits_for (methods p.now)) }
    ensures { (result ≡ first_place (instruction_kept p.now) n)
        × (targets.new ≡ marked p.now (first_false (instruction_kept p.now) n) targets.old) }
{
    let mut o = Owner::of(p, 0);
    for i in 0..n {
        o = o.at(p, i);
        let op = op_at(p, count, i);
        let a = arg_at(p, count, i);
        if !argument_kept(p, limits, o, op, a) {
            return Some(i);
        }
        mark(targets, op, o.start + a, i);
    }
    None
}

// The first of n instructions at fault. Those before it, or all where there is none, have their targets marked.
pub fn first_instruction(p: &[u16], count: usize, n: usize, targets: &mut [u8]) -> Option<usize>
    requires { Sizes p.now × Pairs p.now × (count ≡ methods p.now) × (n ≡ instructions p.now)
        × (4096 ≤ length targets.old) }
    ensures { (result ≡ first_place (instruction_kept p.now) n)
        × (targets.new ≡ marked p.now (first_false (instruction_kept p.now) n) targets.old) }
{
    let limits = limits_for(count);
    first_beyond(p, count, n, &limits, targets)
}
