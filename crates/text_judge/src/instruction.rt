// One instruction judged.
ghost use Rattle.std.specs.Prelude.{◌≡◌, ◌≤◌, ◌<◌};
ghost use Rattle.check_types.specs.PendingCode.{result_in, types_of};
ghost use Rattle.text_judge.specs.RowsCode.{IsRow, calls, argument_in, two_rows, judged_at};
ghost use Rattle.text_judge.specs.JudgeCode.{instruction_at, InCode, TwoMethods, MayCall};

use crate::rows::two_rows;
use check_arguments::ranges::{argument_kept, limits_for};
use check_instructions::owner::Owner;
use check_types::closes;
use check_types::pending::Pending;
use check_types::steps::step;

// How many instructions the method has, how many methods the text has, and of how many of them, by number, the rows are
// at hand.
#[derive(Clone, Copy)]
pub struct Counts {
    pub long: usize,
    pub methods: usize,
    pub known: usize,
}

// An instruction, its argument as in the table of two methods; whether a jump leads to it, and whether it is the last.
#[derive(Drop)]
pub struct Instruction {
    pub op: usize,
    pub argument: usize,
    pub target: bool,
    pub last: bool,
}

// CALL and FORK.
pub fn calling(op: usize) -> bool
    ensures { result ≡ calls op }
{
    (op == 12) | (op == 14)
}

// The method that an instruction names is number 1, and 2 where there is none.
fn argument_in(methods: usize, op: usize, a: usize) -> usize
    requires { a < 65536 }
    ensures { (result ≡ argument_in methods op a) × (result < 65536) }
{
    if calling(op) {
        if a < methods {
            return 1;
        }
        return 2;
    }
    a
}

pub fn instruction_at(code: &[u16], targets: &[u8], n: Counts, i: usize) -> Instruction
    requires { InCode code.now targets.now n i }
    ensures { (result ≡ instruction_at code.now targets.now n i) × (result.argument < 65536) }
{
    let op = code[2 * i] as usize;
    let a = code[2 * i + 1] as usize;
    Instruction {
        op,
        argument: argument_in(n.methods, op, a),
        target: 0 < targets[i],
        last: i + 1 == n.long,
    }
}

// The pending types after an instruction of method 0, which has so many, or a fault.
fn judge_in(table: &[u16], long: usize, s: Instruction, q: Pending) -> Option<Pending>
    requires { TwoMethods table.now long × (s.argument < 65536) }
    ensures { result_in result
        ≡ judged_at table.now s.op s.argument s.target s.last (types_of q) }
{
    let o = Owner {
        method: 0,
        row: 6,
        start: 0,
        end: long,
    };
    let limits = limits_for(2);
    if !argument_kept(table, &limits, o, s.op, s.argument) {
        return None;
    }
    if s.target & (q.count != 0) {
        return None;
    }
    if s.last & !closes(s.op) {
        return None;
    }
    step(table, 2, o, s.op, s.argument, q)
}

// By the own row and that of the method that is called. More parameters than 8 are more than can be pending.
pub fn judge_by(
    own: &[u16],
    callee: &[u16],
    long: usize,
    s: Instruction,
    q: Pending,
) -> Option<Pending>
    requires { MayCall own.now callee.now long s }
    ensures { result_in result
        ≡ judged_at (two_rows own.now callee.now long) s.op s.argument s.target s.last
        (types_of q) }
{
    if 8 < callee[1] {
        return None;
    }
    let table = two_rows(own, callee, long);
    judge_in(&table, long, s, q)
}
