// The entries that write no line: plain steps, and idle entries while some process is known to be able to move. They
// touch neither the trace nor the counts.
ghost use Rattle.std.specs.Prelude.{◌≡◌, ◌+◌, ◌-◌, ◌*◌, ◌<◌, ◌≤◌, length};
ghost use Rattle.run_values.specs.ValuesCode.{after_step};
ghost use Rattle.run_burst.specs.KnowledgeCode.{alone, known_after_step};
ghost use Rattle.run_burst.specs.BurstCode.{stops_at, named_op, is_done, named_before, stops_here, burst_op};

use super::knowledge::Knowledge;
use run_ability::pairing::Pairing;
use run_ability::reads::alone_of;
use run_entry::entry::offer_at;
use run_parts::part::step_process;
use run_store::references::ProcessNo;
use run_values::steps::{StepResult, not_running, went_on};
use table::program::Program;

// The first entry that needs more, with what its step answered, what its offer comes to, and what is known before it;
// `WentOn` where the schedule is used up.
#[derive(Clone, Copy)]
pub struct Burst {
    pub at: usize,
    pub step: StepResult,
    pub offer: Pairing,
    pub known: Knowledge,
}

// One step of the process that the byte names; `NotRunning` where no process can have that number, or where it is
// known not to be able to move.
fn step_named(p: &Program<'_>, work: &mut [u32], n: u8, known: Knowledge) -> StepResult
    requires { 8192 ≤ length work.old }
    ensures { after_step result work.new ≡ named_op p.now work.old n known }
{
    if 8 <= n {
        return StepResult::NotRunning;
    }
    if known.is_idle(n) {
        return StepResult::NotRunning;
    }
    step_process(p, work, ProcessNo(n as u16))
}

// The process that the byte names moves by itself.
pub fn moves_alone(p: &Program<'_>, work: &[u32], n: u8) -> bool
    requires { 8192 ≤ length work.now }
    ensures { result ≡ alone p.now work.now n }
{
    if 8 <= n {
        return false;
    }
    alone_of(p, work, ProcessNo(n as u16))
}

// A step may make the offer that others wait for, so after one the process is looked at, where anything is known.
pub fn known_after_step(
    p: &Program<'_>,
    work: &[u32],
    n: u8,
    mut known: Knowledge,
    step: StepResult,
) -> Knowledge
    requires { 8192 ≤ length work.now }
    ensures { result ≡ known_after_step p.now work.now n known step }
{
    if !known.some {
        return known;
    }
    if !went_on(step) {
        return known;
    }
    known.some = moves_alone(p, work, n);
    known
}

// The entry is over with the step: the process went on, or it does not run and some other is known to be able to
// move.
fn is_done(step: StepResult, known: Knowledge) -> bool
    ensures { result ≡ is_done step known }
{
    if went_on(step) {
        return true;
    }
    not_running(step) & known.some
}

// The process that the entry before names; 0 before the first.
fn named_before(schedule: &[u8], k: usize) -> u8
    requires { k < length schedule.now }
    ensures { result ≡ named_before schedule.now k }
{
    if k == 0 {
        return 0;
    }
    schedule[k - 1]
}

// The entry needs more: the named process does not wait, or no other is known or seen to be able to move. Seen is the
// one that the entry before names.
fn stops_here(
    p: &Program<'_>,
    work: &[u32],
    schedule: &[u8],
    k: usize,
    known: Knowledge,
    m: Pairing,
) -> bool
    requires { (8192 ≤ length work.now) × (k < length schedule.now) }
    ensures { result ≡ stops_here p.now work.now schedule.now k known m }
{
    match m {
        Pairing::Waits if known.some => false,
        Pairing::Waits => !moves_alone(p, work, named_before(schedule, k)),
        _ => true,
    }
}

// The entries from `from` on, up to the first that needs more.
pub fn silent_entries(
    p: &Program<'_>,
    work: &mut [u32],
    t: &[[u16; 2]; 16],
    schedule: &[u8],
    from: usize,
    known: Knowledge,
) -> Burst
    requires { (8192 ≤ length work.old) × (from ≤ length schedule.now) }
    ensures { stops_at result work.new ≡ burst_op p.now t.now schedule.now
        work.old from known (length schedule.now - from) }
{
    let mut sure = known;
    for k in from..schedule.len() {
        let n = schedule[k];
        let step = step_named(p, work, n, sure);
        if is_done(step, sure) {
            sure = known_after_step(p, work, n, sure, step);
        } else {
            let m = offer_at(p, work, t, n, step);
            if stops_here(p, work, schedule, k, sure, m) {
                return Burst {
                    at: k,
                    step,
                    offer: m,
                    known: sure,
                };
            }
            sure = sure.with_idle(n);
        }
    }
    Burst {
        at: schedule.len(),
        step: StepResult::WentOn,
        offer: Pairing::NoOffer,
        known: sure,
    }
}
