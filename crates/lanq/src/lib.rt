// The C interface, include/lanq.h. Each exported function has the contract of the function that it hands on to, the
// answers of the check, of the runs, of the translation and of the look-up as a struct of numbers. But for the
// translation's, these structs are of the crate lanq_answers.
#![tactic(auto)]

ghost use Rattle.std.specs.Prelude.{◌≡◌, length};
ghost use Rattle.table.specs.Questions.{questions};
ghost use Rattle.trace.specs.Trace.{look_up, count_read, same_lines};
ghost use Rattle.machine.specs.Answer.{lines_in};
ghost use Rattle.machine.specs.Answer as machine;
ghost use Rattle.run.specs.Answers as table;
ghost use Rattle.run.specs.Answers.{trace_left, store_left};
ghost use Rattle.text_parse.specs.Text.{text_of};
ghost use Rattle.text_translate.specs.Translate.{answer_for, buffer_after};
ghost use Rattle.run_text.specs.RunText.{answer_numbers, text_answer, text_trace, text_store};
ghost use Rattle.store_read.specs.Stored.{stored_holder};
ghost use Rattle.lanq_answers.specs.Answers.{check_answer, run_answer};
ghost use Rattle.lanq.specs.Answers.{table_answer};

use check_questions::{Refusal, ask};
use lanq_answers::{LanqAnswer, LanqHolder, check_numbers, ended, holder_numbers, refusal};
use run::run;
use run_schedule::entries::RunSummary;
use run_text::{RunRefusal, run_text};
use store_read::stored_holder;
use text_translate::translate;
use trace::lookup::qubit_holder;
use trace::same::same_lines;

// The eight questions, for a work store of so many words.
#[unsafe(no_mangle)]
pub extern "C" fn lanq_check(
    program: &[u16],
    schedule: &[u8],
    outcomes: &[u8],
    work: usize,
) -> LanqAnswer
    ensures { result
        ≡ check_answer (questions program.now schedule.now outcomes.now work) }
{
    check_numbers(ask(program, schedule, outcomes, work))
}

#[tactic(auto, unfolding(lanq_answers::specs::Answers::run_answer, run_text::specs::RunText::answer_numbers))]
fn run_numbers(answer: Result<RunSummary, RunRefusal>) -> LanqAnswer
    ensures { result ≡ run_answer (answer_numbers answer) }
{
    match answer {
        Err(no) => refusal(u64::from(no.number()), no.place() as u64),
        Ok(o) => ended(
            u64::from(o.end.number()),
            o.entries as u64,
            u64::from(o.lines),
            u64::from(o.used),
        ),
    }
}

// A run of a table, as a run of a text has it.
#[tactic(auto, unfolding(run::specs::Answers::answer_numbers, run_text::specs::RunText::answer_numbers))]
fn of_table(answer: Result<RunSummary, Refusal>) -> Result<RunSummary, RunRefusal>
    ensures { answer_numbers result ≡ table.answer_numbers answer }
{
    match answer {
        Ok(ran) => Ok(ran),
        Err(no) => Err(RunRefusal::Question(no)),
    }
}

// The run. Where a question says no, trace and work store keep their words.
#[unsafe(no_mangle)]
pub extern "C" fn lanq_run(
    program: &[u16],
    schedule: &[u8],
    outcomes: &[u8],
    trace: &mut [u16],
    work: &mut [u32],
) -> LanqAnswer
    ensures { (result
        ≡ run_answer (machine.answer_of program.now schedule.now outcomes.now
        (lines_in (length trace.old)) (length work.old)))
        × (trace.new ≡ trace_left program.now schedule.now outcomes.now
        trace.old work.old)
        × (work.new ≡ store_left program.now schedule.now outcomes.now
        trace.old work.old) }
{
    run_numbers(of_table(run(program, schedule, outcomes, trace, work)))
}

// `refused` is 30, 31 or 32 with its place where the text is refused, and else 0, with the words of the text's table.
// Unused fields are 0.
#[repr(C)]
#[derive(Drop)]
pub struct LanqTable {
    pub refused: u64,
    pub place: u64,
    pub words: u64,
}

fn table_numbers(refused: u64, place: u64, words: u64) -> LanqTable
    ensures { result ≡ record { refused = refused; place = place; words = words } }
{
    LanqTable {
        refused,
        place,
        words,
    }
}

// The table of a LanQ text. Where the text is refused or the buffer has fewer words than the table, it keeps its words.
#[unsafe(no_mangle)]
pub extern "C" fn lanq_translate(text: &[u8], table: &mut [u16]) -> LanqTable
    ensures { (result ≡ table_answer (answer_for (length table.old) (text_of text.now)))
        × (table.new ≡ buffer_after table.old (text_of text.now)) }
{
    match translate(text, table) {
        Err(no) => table_numbers(u64::from(no.number()), no.place() as u64, 0),
        Ok(translation) => table_numbers(0, 0, translation.words() as u64),
    }
}

// The run of a LanQ text. Where the text is refused or a question says no, trace and work store keep their words.
#[unsafe(no_mangle)]
pub extern "C" fn lanq_run_text(
    text: &[u8],
    schedule: &[u8],
    outcomes: &[u8],
    trace: &mut [u16],
    work: &mut [u32],
) -> LanqAnswer
    ensures { (result
        ≡ run_answer (text_answer (text_of text.now) schedule.now outcomes.now
        (lines_in (length trace.old)) (length work.old)))
        × (trace.new ≡ text_trace (text_of text.now) schedule.now outcomes.now
        trace.old work.old)
        × (work.new ≡ text_store (text_of text.now) schedule.now outcomes.now
        trace.old work.old) }
{
    run_numbers(run_text(text, schedule, outcomes, trace, work))
}

// The holder by the first k lines of a trace, all if there are fewer, read from the last one backwards.
#[tactic(auto, unfolding(trace::specs::Trace::look_up, trace::specs::Trace::held))]
#[unsafe(no_mangle)]
pub extern "C" fn lanq_holder(trace: &[u16], k: usize, qubit: u16) -> LanqHolder
    ensures { (result.holder ≡ look_up trace.now k qubit)
        × (result.read ≡ count_read trace.now k qubit) }
{
    let answer = qubit_holder(trace, k, qubit);
    holder_numbers(answer)
}

// The holder of a thing as a run has stored it in the work store: kind 3 a qubit, 5 and 6 the ends of a channel. 255
// where the thing is not made, 65535 where the store is too short or there is no such thing.
#[unsafe(no_mangle)]
pub extern "C" fn lanq_stored_holder(work: &[u32], kind: u64, number: u64) -> u16
    ensures { result ≡ stored_holder work.now kind number }
{
    stored_holder(work, kind, number)
}

// Whether two traces have the same lines, column 0 left out, and the same gaps from each line to the next.
#[unsafe(no_mangle)]
pub extern "C" fn lanq_same_lines(a: &[u16], b: &[u16]) -> bool
    ensures { result ≡ same_lines a.now b.now }
{
    same_lines(a, b)
}
