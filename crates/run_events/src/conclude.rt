// An entry that writes one line: its op carried out or its fault, and the process left as the line says.
ghost use Rattle.std.specs.Prelude.{◌≡◌};
ghost use Rattle.run_gates.specs.GatesCode.{after_event};
ghost use Rattle.run_events.specs.ConcludeCode.{perform_op, status_words, conclude_op};

use super::ends::{finish, stop};
use run_gates::event::{EventResult, fault, line};
use run_gates::gates::op_gate;
use run_gates::made::{op_newc, op_newq};
use run_measurement::measured::op_meas;
use run_store::head::{Head, read_head};
use table::program::Program;

// What an entry with one line does: one of four ops, RET of the root frame, which finishes the process, or a fault, by
// its number.
#[derive(Drop)]
pub enum Single {
    NewQ,
    NewC,
    Gate,
    Meas,
    LastRet,
    Fault(u16),
}

// What the line says: of an op that writes one, of the root frame's return, or of the fault.
pub fn perform(
    p: &Program<'_>,
    w: &mut [u32],
    does: Single,
    qubits: u32,
    channels: u32,
    outcomes: &[u8],
    used: usize,
) -> EventResult
    ensures { after_event result w.new
        ≡ perform_op p.now w.old does qubits channels outcomes.now used }
{
    let h = read_head(w);
    match does {
        Single::NewQ => op_newq(w, h, qubits),
        Single::NewC => op_newc(w, h, channels),
        Single::Gate => op_gate(w, h, p.argument(h.place)),
        Single::Meas => op_meas(w, h, outcomes, used),
        Single::LastRet => line(9, 65535, 65535, 65535),
        Single::Fault(n) => fault(n),
    }
}

// The process as the line leaves it: stopped by its fault, finished, or as its op left it.
pub fn update_status(w: &mut [u32], t: EventResult)
    ensures { w.new ≡ status_words w.old t }
{
    if t.code != 0 {
        stop(w, t.code);
        return;
    }
    if t.kind == 9 {
        finish(w);
    }
}

pub fn conclude(
    p: &Program<'_>,
    w: &mut [u32],
    does: Single,
    qubits: u32,
    channels: u32,
    outcomes: &[u8],
    used: usize,
) -> EventResult
    ensures { after_event result w.new
        ≡ conclude_op p.now w.old does qubits channels outcomes.now used }
{
    let t = perform(p, w, does, qubits, channels, outcomes, used);
    update_status(w, t);
    t
}
