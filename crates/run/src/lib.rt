// The run of a program table with a schedule and an outcome list, over a lent trace and a lent work store.
// `run` puts the questions and, where none says no, runs. Its contract is three equations, for inputs of any content
// and length and whatever trace and work store held: the answer, the trace and the work store are those of the
// definitions (specs/Answers.antt), where a question says no both buffers as they were. Nothing is asked of the caller.
// What follows for the buffers, ownership with it, is in proofs/Demands.antt. The contract says nothing of the time
// taken.
#![tactic(auto)]

ghost use Rattle.std.specs.Prelude.{◌≡◌, length};
ghost use Rattle.machine.specs.Answer.{answer_of, lines_in};
ghost use Rattle.run.specs.Answers.{answer_numbers, trace_left, store_left};

use check_questions::{Refusal, ask};
use run_schedule::accepted::accepted_run;
use run_schedule::entries::RunSummary;

// Asks the eight questions and, where none says no, runs. "A refusal gives number and place; trace and work store keep
// their bytes. After a run, the trace's first lines are written and the rest kept; the first 8,192 work words hold the
// final configuration .. words beyond kept", the next 64 being the holders of all qubits and ends.
pub fn run(
    program: &[u16],
    schedule: &[u8],
    outcomes: &[u8],
    trace: &mut [u16],
    work: &mut [u32],
) -> Result<RunSummary, Refusal>
    ensures { (answer_numbers result
        ≡ answer_of program.now schedule.now outcomes.now
        (lines_in (length trace.old)) (length work.old))
        × (trace.new ≡ trace_left program.now schedule.now outcomes.now
        trace.old work.old)
        × (work.new ≡ store_left program.now schedule.now outcomes.now
        trace.old work.old) }
{
    ask(program, schedule, outcomes, work.len())?;
    Ok(accepted_run(program, schedule, outcomes, trace, work))
}
