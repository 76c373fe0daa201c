// FORK over the parts of the forking process and of its child.
ghost use Rattle.std.specs.Prelude.{◌≡◌, ◌+◌, ◌-◌, ◌*◌, ◌<◌, ◌≤◌, length};
ghost use Rattle.run_store.specs.StoreCode.{value_at, head_of, top_at};
ghost use Rattle.run_parts.specs.PartsCode.{part_of, with_part};
ghost use Rattle.run_transfer.specs.TransferCode.{operand_of, arg_handed, args_handed, arg_given, args_given, forked_words};
ghost use Rattle.run_giving.specs.GivingCode.{given_words, began_words, arguments_popped};

use run_giving::{begin, give, pop_arguments};
use run_parts::part::{part, part_at};
use run_store::head::{Head, read_head};
use run_store::references::ProcessNo;
use run_store::values::{Val, put, put_value, value};
use table::program::Program;

// The value d below the next free one of the top frame.
fn operand(w: &[u32], d: u16) -> Val
    ensures { result ≡ value_at w.now (top_at (head_of w.now) d) }
{
    let h = read_head(w);
    value(w, h.top(d))
}

// The same of process n.
#[tactic(auto, unfolding(crate::specs::TransferCode::operand_of))]
pub fn operand_of(work: &[u32], n: ProcessNo, d: u16) -> Val
    requires { (8192 ≤ length work.now) × (n.0 < 8) }
    ensures { result ≡ operand_of work.now n.0 d }
{
    operand(part(work, n), d)
}

// Argument j of n, from the forking process's operands to the child's slot.
fn hand_arg(work: &mut [u32], n: ProcessNo, child: ProcessNo, args: u16, j: u16)
    requires { (8192 ≤ length work.old) × (n.0 < 8) × (child.0 < 8) × (j < args) }
    ensures { work.new ≡ arg_handed work.old n.0 child.0 args j }
{
    let v = operand_of(work, n, args - j);
    let from = part_at(child);
    let to = from + 512;
    put_value(&mut work[from..to], 64 + 2 * (j as usize), v);
}

fn hand_args(work: &mut [u32], n: ProcessNo, child: ProcessNo, args: u16)
    requires { (8192 ≤ length work.old) × (n.0 < 8) × (child.0 < 8) }
    ensures { work.new ≡ args_handed work.old n.0 child.0 args args }
{
    for j in 0..args {
        hand_arg(work, n, child, args, j);
    }
}

pub fn begin_at(p: &Program<'_>, work: &mut [u32], child: ProcessNo, m: u16)
    requires { (8192 ≤ length work.old) × (child.0 < 8) }
    ensures { work.new
        ≡ with_part work.old child.0
        (began_words p.now (part_of work.old child.0) m) }
{
    let from = part_at(child);
    let to = from + 512;
    begin(p, &mut work[from..to], m);
}

fn pop_arguments_at(work: &mut [u32], n: ProcessNo, args: u16)
    requires { (8192 ≤ length work.old) × (n.0 < 8) }
    ensures { work.new
        ≡ with_part work.old n.0 (arguments_popped (part_of work.old n.0) args) }
{
    let from = part_at(n);
    let to = from + 512;
    pop_arguments(&mut work[from..to], args);
}

fn give_at(work: &mut [u32], n: ProcessNo, v: Val)
    requires { (8192 ≤ length work.old) × (n.0 < 8) }
    ensures { work.new
        ≡ with_part work.old n.0 (given_words (part_of work.old n.0) v) }
{
    let from = part_at(n);
    let to = from + 512;
    give(&mut work[from..to], v);
}

// The value in slot j of the child's frame.
fn slot_of(work: &[u32], child: ProcessNo, j: u16) -> Val
    requires { (8192 ≤ length work.now) × (child.0 < 8) }
    ensures { result ≡ value_at (part_of work.now child.0) (64 + 2 * j) }
{
    value(part(work, child), 64 + 2 * (j as usize))
}

fn give_arg(work: &mut [u32], n: ProcessNo, child: ProcessNo, j: u16)
    requires { (8192 ≤ length work.old) × (n.0 < 8) × (child.0 < 8) }
    ensures { work.new ≡ arg_given work.old n.0 child.0 j }
{
    let v = slot_of(work, child, j);
    give_at(work, n, v);
}

fn give_args(work: &mut [u32], n: ProcessNo, child: ProcessNo, args: u16)
    requires { (8192 ≤ length work.old) × (n.0 < 8) × (child.0 < 8) }
    ensures { work.new ≡ args_given work.old n.0 child.0 args }
{
    for j in 0..args {
        give_arg(work, n, child, j);
    }
}

// "FORK gives its qubit, channel and end arguments to the new process, all taken off first, so the child has every
// one".
pub fn fork(p: &Program<'_>, work: &mut [u32], n: ProcessNo, child: ProcessNo, m: u16, args: u16)
    requires { (8192 ≤ length work.old) × (n.0 < 8) × (child.0 < 8) }
    ensures { work.new ≡ forked_words p.now work.old n.0 child.0 m args }
{
    put(work, 0, child.0 as u32 + 1);
    begin_at(p, work, child, m);
    hand_args(work, n, child, args);
    pop_arguments_at(work, n, args);
    give_args(work, n, child, args);
}
