// The check: the eight questions of document 01. `ask` puts them in their order and answers the first no, with its
// place. Its contract is the definition of the questions, for inputs of any content and length. It says nothing of the
// time taken: the table is read a constant number of times.
#![tactic(auto)]

ghost use Rattle.std.specs.Prelude.{◌≡◌};
ghost use Rattle.table.specs.Table.{methods, instructions};
ghost use Rattle.table.specs.Questions.{table_questions, questions};
ghost use Rattle.table.proofs.Accepted.{Sizes, Pairs};
ghost use Rattle.check_questions.specs.Check.{number_of, place_of, verdict_of};
ghost use Rattle.check_questions.specs.AskCode.{input_questions, code_questions};
ghost use Rattle.check_types.specs.RulesCode.{Rows};

mod inputs;

use check_arguments::first_instruction;
use check_shape::pairs::{first_pair, sum_kept};
use check_shape::rows::first_row;
use check_shape::sizes::sizes_kept;
use check_types::first_reading;
use inputs::first_outcome;
use table::words::word_at;

// The question that says no, with its place where it has one.
#[derive(Clone, Copy, Debug, PartialEq, Eq)]
pub enum Refusal {
    Sizes,
    Pairs(usize),
    Rows(usize),
    Instruction(usize),
    Reading(usize),
    Outcome(usize),
    Schedule,
    Work,
}

impl Refusal {
    // The question's number in document 01.
    pub fn number(self) -> u32
        ensures { result ≡ number_of self }
    {
        match self {
            Refusal::Sizes => 1,
            Refusal::Pairs(_) => 2,
            Refusal::Rows(_) => 3,
            Refusal::Instruction(_) => 4,
            Refusal::Reading(_) => 5,
            Refusal::Outcome(_) => 6,
            Refusal::Schedule => 7,
            Refusal::Work => 8,
        }
    }

    // The method, the instruction or the outcome at fault, 0 where the question has no place.
    pub fn place(self) -> usize
        ensures { result ≡ place_of self }
    {
        match self {
            Refusal::Pairs(m) | Refusal::Rows(m) => m,
            Refusal::Instruction(i) | Refusal::Reading(i) | Refusal::Outcome(i) => i,
            Refusal::Sizes | Refusal::Schedule | Refusal::Work => 0,
        }
    }
}

// All eight questions: the table, the schedule, the outcome list and the length of the work store in words.
pub fn ask(program: &[u16], schedule: &[u8], outcomes: &[u8], work: usize) -> Result<(), Refusal>
    ensures { verdict_of result
        ≡ questions program.now schedule.now outcomes.now work }
{
    ask_table(program)?;
    ask_inputs(schedule, outcomes, work)
}

// Questions 1 to 5.
fn ask_table(program: &[u16]) -> Result<(), Refusal>
    ensures { verdict_of result ≡ table_questions program.now }
{
    if !sizes_kept(program) {
        return Err(Refusal::Sizes);
    }
    let count = word_at(program, 0);
    let n = word_at(program, 1);
    if let Some(m) = first_pair(program, count) {
        return Err(Refusal::Pairs(m));
    }
    if !sum_kept(program, count, n) {
        return Err(Refusal::Pairs(count - 1));
    }
    if let Some(m) = first_row(program, count) {
        return Err(Refusal::Rows(m));
    }
    ask_code(program, count, n)
}

// Questions 4 and 5.
fn ask_code(program: &[u16], count: usize, n: usize) -> Result<(), Refusal>
    requires { Sizes program.now × Pairs program.now × Rows program.now × (count ≡ methods program.now)
        × (n ≡ instructions program.now) }
    ensures { verdict_of result ≡ code_questions program.now }
{
    let mut targets = [0u8; 4096];
    if let Some(i) = first_instruction(program, count, n, &mut targets) {
        return Err(Refusal::Instruction(i));
    }
    if let Some(i) = first_reading(program, count, n, &targets) {
        return Err(Refusal::Reading(i));
    }
    Ok(())
}

// Questions 6 to 8.
fn ask_inputs(schedule: &[u8], outcomes: &[u8], work: usize) -> Result<(), Refusal>
    ensures { verdict_of result ≡ input_questions schedule.now outcomes.now work }
{
    if let Some(i) = first_outcome(outcomes) {
        return Err(Refusal::Outcome(i));
    }
    if 65535 < schedule.len() {
        return Err(Refusal::Schedule);
    }
    if work < 8256 {
        return Err(Refusal::Work);
    }
    Ok(())
}
