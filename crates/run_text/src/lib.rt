// The run of a LanQ text (Paper 1). `run_text` translates the text and runs its table. Its contract is three equations,
// for texts, schedules and outcome lists of any content and length and whatever trace and work store held: the answer,
// the trace and the work store are those of the definitions (specs/RunText.antt). Nothing is asked of the caller. What
// follows for the buffers, by the text's meaning, is in proofs/TextDemands.antt.
#![tactic(auto)]

ghost use Rattle.std.specs.Prelude.{◌≡◌, length};
ghost use Rattle.machine.specs.Answer.{lines_in};
ghost use Rattle.text_parse.specs.Text.{text_of};
ghost use Rattle.run_text.specs.RunText.{number_of, place_of, answer_numbers, text_answer, text_trace, text_store};
ghost use Rattle.run_text.specs.declared.RunRefusal.TheVariants.{Text, Question};

use check_questions::Refusal;
use run::run;
use run_schedule::entries::RunSummary;
use text_translate::{TextRefusal, Translation, translate};

// Why a text is not run: it has no table, or a question says no to its table, the schedule, the outcomes or the work
// store.
#[derive(Clone, Copy, Debug, PartialEq, Eq)]
pub enum RunRefusal {
    Text(TextRefusal),
    Question(Refusal),
}

impl RunRefusal {
    pub fn number(self) -> u32
        ensures { result ≡ number_of self }
    {
        match self {
            RunRefusal::Text(refusal) => refusal.number(),
            RunRefusal::Question(refusal) => refusal.number(),
        }
    }

    pub fn place(self) -> usize
        ensures { result ≡ place_of self }
    {
        match self {
            RunRefusal::Text(refusal) => refusal.place(),
            RunRefusal::Question(refusal) => refusal.place(),
        }
    }
}

impl From<TextRefusal> for RunRefusal {
    ghost from_gives = { λ e r. r ≡ Text e };

    fn from(refusal: TextRefusal) -> RunRefusal {
        RunRefusal::Text(refusal)
    }
}

impl From<Refusal> for RunRefusal {
    ghost from_gives = { λ e r. r ≡ Question e };

    fn from(refusal: Refusal) -> RunRefusal {
        RunRefusal::Question(refusal)
    }
}

// Asks 30, 31 and 32, then the eight questions, and runs where none says no. A table has at most 2 + 20 * 32 + 2 *
// 4,096 words, so that it is never too long for the buffer here.
pub fn run_text(
    text: &[u8],
    schedule: &[u8],
    outcomes: &[u8],
    trace: &mut [u16],
    work: &mut [u32],
) -> Result<RunSummary, RunRefusal>
    ensures { (answer_numbers result
        ≡ text_answer (text_of text.now) schedule.now outcomes.now
        (lines_in (length trace.old)) (length work.old))
        × (trace.new ≡ text_trace (text_of text.now) schedule.now outcomes.now
        trace.old work.old)
        × (work.new ≡ text_store (text_of text.now) schedule.now outcomes.now
        trace.old work.old) }
{
    let mut table = [0u16; 8834];
    let Translation::Table(n) = translate(text, &mut table)? else {
        unreachable!()
    };
    Ok(run(&table[..n], schedule, outcomes, trace, work)?)
}
