// MEAS.
ghost use Rattle.std.specs.Prelude.{◌≡◌};
ghost use Rattle.std.proofs.Math.Option.{some};
ghost use Rattle.run_gates.specs.GatesCode.{after_event};
ghost use Rattle.run_measurement.specs.MeasurementCode.{next_in, measured_as, meas_op};

use super::outcome::next_outcome;
use run_gates::event::{EventResult, fault, measured};
use run_gates::faults::{EMPTY, NO_OUTCOME_LEFT};
use run_gates::gates::qubit_no;
use run_store::head::Head;
use run_store::references::QubitNo;
use run_store::values::{Val, value};
use run_values::moves::replace;

// "qubit off, next outcome on as int"
fn measure(w: &mut [u32], h: Head, outcome: u8) -> EventResult
    ensures { after_event result w.new ≡ measured_as w.old h (some outcome) }
{
    let q = qubit_no(w, h, 1);
    replace(
        w,
        h,
        Val {
            tag: 1,
            number: outcome as u32,
        },
    );
    measured(q.0, outcome)
}

// "24 no outcome left", the first `used` being used.
fn measure_next(w: &mut [u32], h: Head, outcomes: &[u8], used: usize) -> EventResult
    ensures { after_event result w.new
        ≡ measured_as w.old h (next_in outcomes.now used) }
{
    match next_outcome(outcomes, used) {
        Some(o) => measure(w, h, o.number()),
        None => fault(NO_OUTCOME_LEFT),
    }
}

// "20 .. (before all others ..)".
pub fn op_meas(w: &mut [u32], h: Head, outcomes: &[u8], used: usize) -> EventResult
    ensures { after_event result w.new ≡ meas_op w.old h outcomes.now used }
{
    let v = value(w, h.top(1));
    if v.tag == 0 {
        return fault(EMPTY);
    }
    measure_next(w, h, outcomes, used)
}
