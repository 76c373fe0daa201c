// An entry that is no plain step, by what the step answered.
ghost use Rattle.std.specs.Prelude.{◌≡◌, ◌+◌, ◌*◌, ◌<◌, ◌≤◌, length};
ghost use Rattle.run_ability.specs.PairingCode.{Near};
ghost use Rattle.run_single.specs.ResultCode.{after_entry};
ghost use Rattle.run_entry.specs.EntryCode.{rest_of, offer_at, entry_op, one_line};

use super::forking::fork_entry;
use super::meeting::meet_entry;
use run_ability::pairing::{Pairing, pair_up};
use run_events::conclude::Single;
use run_gates::faults::{EMPTY, FRAME_BEYOND_8, OUT_OF_RANGE};
use run_single::result::{Count, EntryResult};
use run_single::single::single;
use run_store::references::ProcessNo;
use run_values::steps::{StepResult, is_offer, not_running};
use table::program::Program;

// What a step leaves of its entry to the run: nothing, where the process went on or does not run; FORK; SEND or RECV;
// or an entry with one line.
#[derive(Drop)]
pub enum Rest {
    Nothing,
    Fork,
    Offer,
    Line(Single),
}

#[tactic(auto, unfolding(crate::specs::EntryCode::rest_of))]
fn rest_of(step: StepResult) -> Rest
    ensures { result ≡ rest_of step }
{
    match step {
        StepResult::WentOn => Rest::Nothing,
        StepResult::NotRunning => Rest::Nothing,
        StepResult::AtNewQ => Rest::Line(Single::NewQ),
        StepResult::AtNewC => Rest::Line(Single::NewC),
        StepResult::AtGate => Rest::Line(Single::Gate),
        StepResult::AtMeas => Rest::Line(Single::Meas),
        StepResult::AtLastRet => Rest::Line(Single::LastRet),
        StepResult::AtFork => Rest::Fork,
        StepResult::AtSend => Rest::Offer,
        StepResult::AtRecv => Rest::Offer,
        StepResult::Empty => Rest::Line(Single::Fault(EMPTY)),
        StepResult::FrameBeyond8 => Rest::Line(Single::Fault(FRAME_BEYOND_8)),
        StepResult::OutOfRange => Rest::Line(Single::Fault(OUT_OF_RANGE)),
    }
}

// What the offer of the named process comes to, by what its step answered; a process that does not run waits. It is marked
// as cold, so that it stays out of the loop over plain steps, which has no registers to spare (docs/PERFORMANCE.md).
#[cold]
pub fn offer_at(
    p: &Program<'_>,
    work: &[u32],
    t: &[[u16; 2]; 16],
    n: u8,
    step: StepResult,
) -> Pairing
    requires { 8192 ≤ length work.now }
    ensures { result ≡ offer_at p.now work.now t.now n step }
{
    if not_running(step) {
        return Pairing::Waits;
    }
    if is_offer(step) & (n < 8) {
        return pair_up(p, work, t, ProcessNo(n as u16), step);
    }
    Pairing::NoOffer
}

// What the step has left of the entry. `m` is what the offer of the process comes to, and counts only where it offers.
pub fn entry(
    p: &Program<'_>,
    outcomes: &[u8],
    trace: &mut [u16],
    work: &mut [u32],
    room: usize,
    g: Count,
    n: ProcessNo,
    step: StepResult,
    m: Pairing,
) -> EntryResult
    requires { (8192 ≤ length work.old) × (n.0 < 8) × (g.lines < 16000000)
        × Near m }
    ensures { after_entry result trace.new work.new
        ≡ entry_op p.now outcomes.now trace.old work.old
        room g n.0 step m }
{
    match rest_of(step) {
        Rest::Nothing => EntryResult::Unable,
        Rest::Fork => fork_entry(p, outcomes, trace, work, room, g, n),
        Rest::Offer => meet_entry(p, outcomes, trace, work, room, g, n, m),
        Rest::Line(does) => single(p, outcomes, trace, work, room, g, n, does),
    }
}

// The entry has one line, and changes its process's part alone.
pub fn one_line(step: StepResult) -> bool
    ensures { result ≡ one_line step }
{
    matches!(rest_of(step), Rest::Line(_))
}
