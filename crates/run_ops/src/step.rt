// One step of a process, as far as it stays within the process and writes no line.
ghost use Rattle.std.specs.Prelude.{◌≡◌};
ghost use Rattle.run_values.specs.ValuesCode.{after_step};
ghost use Rattle.run_ops.specs.OpsCode.{act_op, step_op};

use super::calls::{op_call, op_ret};
use run_moves::jumps::{op_jfalse, op_jump};
use run_moves::moves::{op_bool, op_clear, op_drop, op_end, op_get, op_int, op_put};
use run_numbers::numbers::{op_add, op_eq, op_less, op_not, op_sub};
use run_store::head::{Head, read_head};
use run_store::values::get;
use run_values::steps::StepResult;
use table::program::Program;

// The op's function. An op that does more, or writes a line, is left to the caller.
pub fn act(p: &Program<'_>, w: &mut [u32], h: Head, op: usize, a: u16) -> StepResult
    ensures { after_step result w.new ≡ act_op p.now w.old h op a }
{
    match op {
        1 => op_int(w, h, a),
        2 => op_bool(w, h, a),
        3 => op_get(w, h, a),
        4 => op_put(w, h, a),
        5 => op_drop(w, h),
        6 => op_clear(w, h, a),
        7 => StepResult::AtNewQ,
        8 => StepResult::AtNewC,
        9 => op_end(w, h, a),
        10 => StepResult::AtGate,
        11 => StepResult::AtMeas,
        12 => op_call(p, w, h, a),
        13 => op_ret(p, w, h),
        14 => StepResult::AtFork,
        15 => StepResult::AtSend,
        16 => StepResult::AtRecv,
        17 => op_jump(p, w, h, a),
        18 => op_jfalse(p, w, h, a),
        19 => op_add(w, h),
        20 => op_sub(w, h),
        21 => op_eq(w, h),
        22 => op_less(w, h),
        23 => op_not(w, h),
        _ => StepResult::NotRunning,
    }
}

// One step of the process whose part is w.
pub fn step(p: &Program<'_>, w: &mut [u32]) -> StepResult
    ensures { after_step result w.new ≡ step_op p.now w.old }
{
    if get(w, 0) != 1 {
        return StepResult::NotRunning;
    }
    let h = read_head(w);
    let i = p.instruction(h.place);
    act(p, w, h, i.op, i.argument)
}
