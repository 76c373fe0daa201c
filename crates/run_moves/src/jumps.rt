// JUMP and JFALSE.
ghost use Rattle.std.specs.Prelude.{◌≡◌};
ghost use Rattle.run_values.specs.ValuesCode.{after_step};
ghost use Rattle.run_moves.specs.MovesCode.{target_of, jump_op, jfalse_op};

use run_store::head::{Head, put_top};
use run_store::values::value;
use run_values::moves::{discard, discard_to};
use run_values::steps::StepResult;
use table::program::Program;

// "instruction, from the method's start"
pub fn target(p: &Program<'_>, h: Head, a: u16) -> u32
    ensures { result ≡ target_of p.now h a }
{
    (p.offset(h.method) + a as usize) as u32
}

pub fn op_jump(p: &Program<'_>, w: &mut [u32], h: Head, a: u16) -> StepResult
    ensures { after_step result w.new ≡ jump_op p.now w.old h a }
{
    put_top(w, h.to(target(p, h, a)));
    StepResult::WentOn
}

// "JFALSE takes a boolean, jumps on false".
pub fn op_jfalse(p: &Program<'_>, w: &mut [u32], h: Head, a: u16) -> StepResult
    ensures { after_step result w.new ≡ jfalse_op p.now w.old h a }
{
    let v = value(w, h.top(1));
    if v.tag == 0 {
        return StepResult::Empty;
    }
    if v.number == 0 {
        discard_to(w, h, target(p, h, a));
        return StepResult::WentOn;
    }
    discard(w, h);
    StepResult::WentOn
}
