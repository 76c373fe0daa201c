// The entries of the schedule, one after the other.
ghost use Rattle.std.specs.Prelude.{◌≡◌, ◌+◌, ◌*◌, ◌/◌, ◌<◌, ◌≤◌, [], ◌++◌, length, drop};
ghost use Rattle.lists.specs.Lists.{All};
ghost use Rattle.table.proofs.Accepted.{Kept};
ghost use Rattle.machine.specs.State.{start_config};
ghost use Rattle.machine.specs.Run.{run};
ghost use Rattle.layout.specs.Layout.{encode};
ghost use Rattle.layout.specs.Holders.{holder_words};
ghost use Rattle.run_schedule.specs.SummaryCode.{after_run, run_leaves};

use run_ability::ending::ending;
use run_ability::ends::End;
use run_burst::consecutive::{next_burst, take_first};
use run_burst::knowledge::nothing_known;
use run_burst::turn::{Turn, turn_at};
use run_holders::ends::no_holders;
use run_holders::update::update_holders;
use table::program::Program;

// The end, the entries used, the lines written and the outcomes used.
#[derive(Drop)]
pub struct RunSummary {
    pub end: End,
    pub entries: usize,
    pub lines: u32,
    pub used: u32,
}

// From the start of a run to its end: a burst of entries that write no line, then the entry at which it stops, again
// and again. `room` is how many lines the trace holds. The burst is called in one place, so that it is compiled into
// this loop.
pub fn run_entries(
    program: &[u16],
    schedule: &[u8],
    outcomes: &[u8],
    trace: &mut [u16],
    work: &mut [u32],
    room: usize,
) -> RunSummary
    requires { (8256 ≤ length work.old) × (length schedule.now ≤ 65535)
        × (room ≡ length trace.old / 6) × Kept program.now
        × (work.old ≡ encode (start_config program.now) ++ (holder_words [] ++ drop 8256 work.old))
        × All (λ o. o ≤ 2) outcomes.now }
    ensures { after_run result trace.new work.new
        ≡ run_leaves (run program.now outcomes.now room schedule.now) trace.old
        work.old }
{
    let p = Program::of(program);
    let mut t = no_holders();
    let mut lines: u32 = 0;
    let mut used: u32 = 0;
    let mut k = take_first(&p, work, schedule);
    let mut known = nothing_known();
    loop {
        let b = next_burst(&p, work, &t, schedule, k, known);
        if schedule.len() <= b.at {
            return RunSummary {
                end: ending(&p, work, &t).unwrap_or(End::ScheduleUsed),
                entries: b.at,
                lines,
                used,
            };
        }
        let turn = turn_at(
            &p, schedule, outcomes, trace, work, room, &t, lines, used, b,
        );
        match turn {
            Turn::Ends { end, lines, used } => {
                return RunSummary {
                    end,
                    entries: b.at,
                    lines,
                    used,
                };
            }
            Turn::GoesOn {
                lines: written,
                used: drawn,
                known: left,
            } => {
                let changed = update_holders(&mut t, work, trace, lines, written);
                lines = written;
                used = drawn;
                known = left.unless(changed);
                k = b.at + 1;
            }
        }
    }
}
