// The answers of the C interface as structs of numbers: `check_numbers` for the check's, `refusal` and `ended` for a
// run's, `holder_numbers` for the look-up's. Each contract gives the result by equation, and nothing is asked of the
// caller. They stand apart from lanq, which is over every other crate, so that they are proved in seconds.
#![tactic(auto)]

ghost use Rattle.std.specs.Prelude.{◌≡◌};
ghost use Rattle.std.proofs.Math.Option.{get_or};
ghost use Rattle.machine.specs.Answer.{ran};
ghost use Rattle.trace.specs.Trace.{found};
ghost use Rattle.check_questions.specs.Check.{verdict_of};
ghost use Rattle.lanq_answers.specs.Answers.{check_answer, run_answer};

use check_questions::Refusal;
use trace::lookup::QubitHolder;

// `refused` is 0 where the input is accepted, and else the question's number with its place. Unused fields are 0.
#[repr(C)]
#[derive(Drop)]
pub struct LanqAnswer {
    pub refused: u64,
    pub place: u64,
    pub end: u64,
    pub entries: u64,
    pub lines: u64,
    pub outcomes: u64,
}

// The check and the run answer alike where a question says no.
pub fn refusal(number: u64, place: u64) -> LanqAnswer
    ensures { result ≡ record { refused = number; place = place; end = 0; entries = 0; lines = 0; outcomes = 0 } }
{
    LanqAnswer {
        refused: number,
        place,
        end: 0,
        entries: 0,
        lines: 0,
        outcomes: 0,
    }
}

#[tactic(auto, unfolding(crate::specs::Answers::check_answer, check_questions::specs::Check::verdict_of))]
pub fn check_numbers(answer: Result<(), Refusal>) -> LanqAnswer
    ensures { result ≡ check_answer (verdict_of answer) }
{
    match answer {
        Ok(()) => refusal(0, 0),
        Err(no) => refusal(u64::from(no.number()), no.place() as u64),
    }
}

// A run that was accepted.
pub fn ended(end: u64, entries: u64, lines: u64, outcomes: u64) -> LanqAnswer
    ensures { result ≡ run_answer (ran end entries lines outcomes) }
{
    LanqAnswer {
        refused: 0,
        place: 0,
        end,
        entries,
        lines,
        outcomes,
    }
}

// The holder of a qubit, 65535 for nobody, and how many lines were read for it.
#[repr(C)]
#[derive(Drop)]
pub struct LanqHolder {
    pub holder: u64,
    pub read: u64,
}

pub fn holder_numbers(answer: QubitHolder) -> LanqHolder
    ensures { (result.holder ≡ get_or (found answer.holder) 65535) × (result.read ≡ answer.read) }
{
    LanqHolder {
        holder: u64::from(answer.holder.unwrap_or(65535)),
        read: answer.read as u64,
    }
}
