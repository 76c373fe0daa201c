// An entry that is no plain step, with what it means for the run.
ghost use Rattle.std.specs.Prelude.{◌≡◌, ◌+◌, ◌*◌, ◌<◌, ◌≤◌, length};
ghost use Rattle.run_ability.specs.PairingCode.{Near};
ghost use Rattle.run_single.specs.ResultCode.{after_entry};
ghost use Rattle.run_burst.specs.KnowledgeCode.{known_after_entry};
ghost use Rattle.run_burst.specs.TurnCode.{after_turn, named_entry_op, turn_op, turn_at};

use super::burst::{Burst, known_after_step};
use super::knowledge::{Knowledge, nothing_known};
use run_ability::ending::ending;
use run_ability::ends::End;
use run_ability::pairing::Pairing;
use run_entry::entry::{entry, one_line};
use run_single::result::{Count, EntryResult};
use run_store::references::ProcessNo;
use run_values::steps::StepResult;
use table::program::Program;

// What an entry means for the run: it goes on, with the lines written, the outcomes used and what is known of the
// processes; or it ends.
#[derive(Clone, Copy)]
pub enum Turn {
    GoesOn {
        lines: u32,
        used: u32,
        known: Knowledge,
    },
    Ends {
        end: End,
        lines: u32,
        used: u32,
    },
}

// The entry of the process that the byte names.
fn named_entry(
    p: &Program<'_>,
    outcomes: &[u8],
    trace: &mut [u16],
    work: &mut [u32],
    room: usize,
    g: Count,
    n: u8,
    step: StepResult,
    m: Pairing,
) -> EntryResult
    requires { (8192 ≤ length work.old) × (g.lines < 16000000) × Near m }
    ensures { after_entry result trace.new work.new ≡ named_entry_op p.now outcomes.now trace.old work.old room g n step m }
{
    if 8 <= n {
        return EntryResult::Unable;
    }
    entry(
        p,
        outcomes,
        trace,
        work,
        room,
        g,
        ProcessNo(n as u16),
        step,
        m,
    )
}

// An entry with one line may leave its process where others wait for it, like a step; after any other, nothing is
// known.
fn known_after_entry(
    p: &Program<'_>,
    work: &[u32],
    n: u8,
    known: Knowledge,
    step: StepResult,
) -> Knowledge
    requires { 8192 ≤ length work.now }
    ensures { result ≡ known_after_entry p.now work.now n known step }
{
    if one_line(step) {
        return known_after_step(p, work, n, known, StepResult::WentOn);
    }
    nothing_known()
}

// "none able to move .. end 2" is worked out only where the named process cannot move and no other is known or seen to
// be able to.
fn take_turn(
    p: &Program<'_>,
    outcomes: &[u8],
    trace: &mut [u16],
    work: &mut [u32],
    room: usize,
    t: &[[u16; 2]; 16],
    g: Count,
    n: u8,
    step: StepResult,
    offer: Pairing,
    known: Knowledge,
) -> Turn
    requires { (8192 ≤ length work.old) × (g.lines < 16000000) × Near offer }
    ensures { after_turn result trace.new work.new ≡ turn_op p.now outcomes.now trace.old work.old room t.now g n step offer known }
{
    let m = named_entry(p, outcomes, trace, work, room, g, n, step, offer);
    match m {
        EntryResult::Full => Turn::Ends {
            end: End::TraceFull,
            lines: g.lines,
            used: g.used,
        },
        EntryResult::Taken { lines, used } => Turn::GoesOn {
            lines,
            used,
            known: known_after_entry(p, work, n, known, step),
        },
        EntryResult::Unable => match ending(p, work, t) {
            Some(end) => Turn::Ends {
                end,
                lines: g.lines,
                used: g.used,
            },
            None => Turn::GoesOn {
                lines: g.lines,
                used: g.used,
                known: known.with_idle(n),
            },
        },
    }
}

// The entry at which a burst has stopped.
pub fn turn_at(
    p: &Program<'_>,
    schedule: &[u8],
    outcomes: &[u8],
    trace: &mut [u16],
    work: &mut [u32],
    room: usize,
    t: &[[u16; 2]; 16],
    lines: u32,
    used: u32,
    b: Burst,
) -> Turn
    requires { (8192 ≤ length work.old) × (b.at < length schedule.now) ×
        (length schedule.now ≤ 65535) × (lines < 16000000)
        × Near b.offer }
    ensures { after_turn result trace.new work.new ≡ turn_at p.now schedule.now outcomes.now trace.old work.old room t.now lines
        used b }
{
    let g = Count {
        entry: b.at as u16,
        lines,
        used,
    };
    take_turn(
        p,
        outcomes,
        trace,
        work,
        room,
        t,
        g,
        schedule[b.at],
        b.step,
        b.offer,
        b.known,
    )
}
