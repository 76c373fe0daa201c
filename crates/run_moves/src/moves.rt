// INT, BOOL, CLEAR, GET, PUT, DROP and END.
ghost use Rattle.std.specs.Prelude.{◌≡◌};
ghost use Rattle.run_values.specs.ValuesCode.{after_step};
ghost use Rattle.run_moves.specs.MovesCode.{sign_extended, int_op, bool_op, clear_op, get_op, put_op, drop_op, end_op};

use run_store::head::Head;
use run_store::values::{Val, empty, value};
use run_values::moves::{discard, push, replace, store_slot};
use run_values::steps::StepResult;

// The word of a 16-bit int: "two's complement, -32768 to 32767".
pub fn extend(a: u16) -> u32
    ensures { result ≡ sign_extended a }
{
    if a < 32768 {
        return a as u32;
    }
    a as u32 + 4294901760
}

// INT and BOOL: "push it".
pub fn op_int(w: &mut [u32], h: Head, a: u16) -> StepResult
    ensures { after_step result w.new ≡ int_op w.old h a }
{
    push(
        w,
        h,
        Val {
            tag: 1,
            number: extend(a),
        },
    );
    StepResult::WentOn
}

pub fn op_bool(w: &mut [u32], h: Head, a: u16) -> StepResult
    ensures { after_step result w.new ≡ bool_op w.old h a }
{
    push(
        w,
        h,
        Val {
            tag: 2,
            number: a as u32,
        },
    );
    StepResult::WentOn
}

// CLEAR: "empty it".
pub fn op_clear(w: &mut [u32], h: Head, a: u16) -> StepResult
    ensures { after_step result w.new ≡ clear_op w.old h a }
{
    store_slot(w, h, a, empty());
    StepResult::WentOn
}

// GET: "push its value".
pub fn op_get(w: &mut [u32], h: Head, a: u16) -> StepResult
    ensures { after_step result w.new ≡ get_op w.old h a }
{
    let v = value(w, h.slot(a));
    if v.tag == 0 {
        return StepResult::Empty;
    }
    push(w, h, v);
    StepResult::WentOn
}

// PUT: "store the top, leave it on top".
pub fn op_put(w: &mut [u32], h: Head, a: u16) -> StepResult
    ensures { after_step result w.new ≡ put_op w.old h a }
{
    let v = value(w, h.top(1));
    if v.tag == 0 {
        return StepResult::Empty;
    }
    store_slot(w, h, a, v);
    StepResult::WentOn
}

// DROP: "take the top away".
pub fn op_drop(w: &mut [u32], h: Head) -> StepResult
    ensures { after_step result w.new ≡ drop_op w.old h }
{
    let v = value(w, h.top(1));
    if v.tag == 0 {
        return StepResult::Empty;
    }
    discard(w, h);
    StepResult::WentOn
}

// END: "channel off, that end on". An end has the tag 5 or 6, by its side, and the channel's number.
pub fn op_end(w: &mut [u32], h: Head, a: u16) -> StepResult
    ensures { after_step result w.new ≡ end_op w.old h a }
{
    let v = value(w, h.top(1));
    if v.tag == 0 {
        return StepResult::Empty;
    }
    replace(
        w,
        h,
        Val {
            tag: 5 + a as u32,
            number: v.number,
        },
    );
    StepResult::WentOn
}
