// ADD, SUB, EQ, LESS and NOT. Ints are words in two's complement; moved up by 2^31 they keep their order and are not
// negative, so that sums and differences are taken in 64 bits with one test of range.
ghost use Rattle.std.specs.Prelude.{◌≡◌, ◌+◌, ◌-◌, ◌<◌};
ghost use Rattle.run_values.specs.ValuesCode.{after_step, bool_val};
ghost use Rattle.run_numbers.specs.NumbersCode.{bit, biased, two_numbers, result_op, add_op, sub_op, eq_op, less_op, not_op};

use run_store::head::Head;
use run_store::values::{Val, value};
use run_values::moves::{replace, replace_two};
use run_values::operands::{number, two_empty};
use run_values::steps::StepResult;

pub fn bias(x: u32) -> u64
    ensures { (result ≡ biased x) × (result < 4294967296) }
{
    (x as u64 + 2147483648) % 4294967296
}

// A truth value.
pub fn flag(b: bool) -> Val
    ensures { result ≡ bool_val (bit b) }
{
    if b {
        return Val { tag: 2, number: 1 };
    }
    Val { tag: 2, number: 0 }
}

// The numbers of two operands, the deeper first; none where one of them is emptied.
fn two_numbers(w: &[u32], h: Head) -> Option<(u32, u32)>
    ensures { result ≡ two_numbers w.now h }
{
    if two_empty(w, h) {
        None
    } else {
        Some((number(w, h, 2), number(w, h, 1)))
    }
}

// The int whose number, moved up by 2^32, is s, in place of two operands, where it is in range.
pub fn result(w: &mut [u32], h: Head, s: u64) -> StepResult
    ensures { after_step result w.new ≡ result_op w.old h s }
{
    if s < 2147483648 {
        return StepResult::OutOfRange;
    }
    if 6442450944 <= s {
        return StepResult::OutOfRange;
    }
    replace_two(
        w,
        h,
        Val {
            tag: 1,
            number: (s % 4294967296) as u32,
        },
    );
    StepResult::WentOn
}

pub fn op_add(w: &mut [u32], h: Head) -> StepResult
    ensures { after_step result w.new ≡ add_op w.old h }
{
    let Some((x, y)) = two_numbers(w, h) else {
        return StepResult::Empty;
    };
    result(w, h, bias(x) + bias(y))
}

pub fn op_sub(w: &mut [u32], h: Head) -> StepResult
    ensures { after_step result w.new ≡ sub_op w.old h }
{
    let Some((x, y)) = two_numbers(w, h) else {
        return StepResult::Empty;
    };
    result(w, h, bias(x) + 4294967296 - bias(y))
}

pub fn op_eq(w: &mut [u32], h: Head) -> StepResult
    ensures { after_step result w.new ≡ eq_op w.old h }
{
    let Some((x, y)) = two_numbers(w, h) else {
        return StepResult::Empty;
    };
    replace_two(w, h, flag(x == y));
    StepResult::WentOn
}

pub fn op_less(w: &mut [u32], h: Head) -> StepResult
    ensures { after_step result w.new ≡ less_op w.old h }
{
    let Some((x, y)) = two_numbers(w, h) else {
        return StepResult::Empty;
    };
    replace_two(w, h, flag(bias(x) < bias(y)));
    StepResult::WentOn
}

pub fn op_not(w: &mut [u32], h: Head) -> StepResult
    ensures { after_step result w.new ≡ not_op w.old h }
{
    let v = value(w, h.top(1));
    if v.tag == 0 {
        return StepResult::Empty;
    }
    replace(w, h, flag(v.number == 0));
    StepResult::WentOn
}
