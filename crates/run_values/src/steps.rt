// What a step of a process answers.
ghost use Rattle.std.specs.Prelude.{◌≡◌};
ghost use Rattle.run_values.specs.ValuesCode.{went_on, not_running, is_send, is_offer};

// The process went on; it does not run; or it is left to the run, as it was: it stands at an op that writes a line, at
// RET of the root frame, which finishes it, at FORK, SEND or RECV, or at a fault: "20 the slot read, or a value taken
// .. is empty", "25 frame beyond 8", "26 int out of range". A case has no number of its own beside it: that would cost
// four instructions in every step, and the cases after which a process may wait come first: that saves two
// (docs/DECISIONS.md).
#[derive(Clone, Copy, PartialEq, Eq)]
pub enum StepResult {
    WentOn,
    NotRunning,
    AtSend,
    AtRecv,
    AtFork,
    AtNewQ,
    AtNewC,
    AtGate,
    AtMeas,
    AtLastRet,
    Empty,
    FrameBeyond8,
    OutOfRange,
}

// It went on.
pub fn went_on(step: StepResult) -> bool
    ensures { result ≡ went_on step }
{
    matches!(step, StepResult::WentOn)
}

// It does not run.
pub fn not_running(step: StepResult) -> bool
    ensures { result ≡ not_running step }
{
    matches!(step, StepResult::NotRunning)
}

// It stands at SEND.
pub fn is_send(step: StepResult) -> bool
    ensures { result ≡ is_send step }
{
    matches!(step, StepResult::AtSend)
}

// SEND or RECV.
pub fn is_offer(step: StepResult) -> bool
    ensures { result ≡ is_offer step }
{
    matches!(step, StepResult::AtSend | StepResult::AtRecv)
}
