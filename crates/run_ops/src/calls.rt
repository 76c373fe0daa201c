// CALL and RET.
ghost use Rattle.std.specs.Prelude.{◌≡◌, ◌+◌, ◌<◌};
ghost use Rattle.run_values.specs.ValuesCode.{after_step};
ghost use Rattle.run_ops.specs.OpsCode.{begun, opened, call_op, closed, handed, ret_op};

use run_store::blocks::{any_empty, clear, move_down};
use run_store::head::{Head, put_top, read_head};
use run_store::values::{Val, low, put, put_value, value};
use run_values::steps::StepResult;
use table::program::Program;

// Frame number n begins in method m.
pub fn begin_frame(p: &Program<'_>, w: &mut [u32], n: u32, m: u16)
    ensures { w.new ≡ begun p.now w.old n m }
{
    let at = 4 + 4 * (n as usize);
    put(w, at, m as u32);
    put(w, at + 1, p.offset(m as u32) as u32);
    put(w, 2, n);
}

// A frame opened for method m, with its n arguments moved into its slots.
pub fn open_frame(p: &Program<'_>, w: &mut [u32], h: Head, m: u16, n: u16)
    requires { h.frames < 8 }
    ensures { w.new ≡ opened p.now w.old h m n }
{
    let next = h.frames + 1;
    move_down(w, h.top(1), 16 + 48 * (next as usize), n);
    put_top(w, h.less(n).step());
    begin_frame(p, w, next, m);
}

// CALL: "its P arguments off, last on top".
pub fn op_call(p: &Program<'_>, w: &mut [u32], h: Head, a: u16) -> StepResult
    ensures { after_step result w.new ≡ call_op p.now w.old h a }
{
    let n = p.params(a);
    if any_empty(w, h.top(1), n) {
        return StepResult::Empty;
    }
    if 8 <= h.frames {
        return StepResult::FrameBeyond8;
    }
    open_frame(p, w, h, a, n);
    StepResult::WentOn
}

// The top frame closed: its words are 0 again.
pub fn close_frame(w: &mut [u32], h: Head)
    ensures { w.new ≡ closed w.old h }
{
    let n = h.frames as usize;
    clear(w, 16 + 48 * n, 48);
    clear(w, 4 + 4 * n, 3);
    put(w, 2, low(n + 4294967295));
}

// A value handed to the top frame, which stays where it stands.
pub fn hand_back(w: &mut [u32], v: Val)
    ensures { w.new ≡ handed w.old v }
{
    let h = read_head(w);
    put_value(w, h.top(0), v);
    put_top(w, h.push());
}

// RET: "return value off unless void; the frame goes". The root frame is left as it is, for the caller.
pub fn op_ret(p: &Program<'_>, w: &mut [u32], h: Head) -> StepResult
    ensures { after_step result w.new ≡ ret_op p.now w.old h }
{
    let v = value(w, h.top(1));
    if p.returns(h.method) == 0 {
        if h.frames == 1 {
            return StepResult::AtLastRet;
        }
        close_frame(w, h);
        return StepResult::WentOn;
    }
    if v.tag == 0 {
        return StepResult::Empty;
    }
    if h.frames == 1 {
        return StepResult::AtLastRet;
    }
    close_frame(w, h);
    hand_back(w, v);
    StepResult::WentOn
}
