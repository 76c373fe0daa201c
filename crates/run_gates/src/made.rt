// NEWQ and NEWC. `made` is the count of those made before, which is the new one's number.
ghost use Rattle.std.specs.Prelude.{◌≡◌};
ghost use Rattle.run_gates.specs.GatesCode.{after_event, newq_op, newc_op};

use super::event::{EventResult, fault, line};
use super::faults::{CHANNEL_BEYOND_16, QUBIT_BEYOND_32};
use run_store::head::Head;
use run_store::values::Val;
use run_values::moves::push;

// "push a new qubit"; "22 qubit beyond 32".
pub fn op_newq(w: &mut [u32], h: Head, made: u32) -> EventResult
    ensures { after_event result w.new ≡ newq_op w.old h made }
{
    if made < 32 {
        push(
            w,
            h,
            Val {
                tag: 3,
                number: made,
            },
        );
        return line(1, made as u16, 65535, 65535);
    }
    fault(QUBIT_BEYOND_32)
}

// "push a new channel"; "21 channel beyond 16".
pub fn op_newc(w: &mut [u32], h: Head, made: u32) -> EventResult
    ensures { after_event result w.new ≡ newc_op w.old h made }
{
    if made < 16 {
        push(
            w,
            h,
            Val {
                tag: 4,
                number: made,
            },
        );
        return line(2, made as u16, 65535, 65535);
    }
    fault(CHANNEL_BEYOND_16)
}
