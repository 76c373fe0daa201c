// The run of inputs to which no question says no.
ghost use Rattle.std.specs.Prelude.{◌≡◌, ◌+◌, ◌*◌, ◌/◌, length};
ghost use Rattle.table.specs.Questions.{accepted, questions};
ghost use Rattle.machine.specs.Answer.{lines_in};
ghost use Rattle.machine.specs.Run.{run};
ghost use Rattle.run_schedule.specs.SummaryCode.{after_run, run_leaves};

use super::begin::begin_run;
use super::entries::{RunSummary, run_entries};

pub fn accepted_run(
    program: &[u16],
    schedule: &[u8],
    outcomes: &[u8],
    trace: &mut [u16],
    work: &mut [u32],
) -> RunSummary
    requires { questions program.now schedule.now outcomes.now (length work.old) ≡ accepted }
    ensures { after_run result trace.new work.new
        ≡ run_leaves (run program.now outcomes.now (lines_in (length trace.old))
        schedule.now) trace.old work.old }
{
    begin_run(program, work);
    let room = trace.len() / 6;
    run_entries(program, schedule, outcomes, trace, work, room)
}
