// The text of a run's answer, with the lines of its trace in front.
ghost use Rattle.std.specs.Prelude.{◌≡◌, ◌*◌, ◌≤◌, ◌<◌, length, take};
ghost use Rattle.machine.specs.Answer.{ran};
ghost use Rattle.trace.specs.Trace.{lines_of};
ghost use Rattle.print_format.specs.Format.{answer_text};
ghost use Rattle.lists.specs.Lists.{put_from};
ghost use Rattle.run_ability.specs.EndNumbers.{end_number};
ghost use Rattle.run.specs.Answers.{answer_numbers, lines_no};

use check_questions::Refusal;
use print_lines::traces::put_lines;
use print_lines::writing::{put_end, put_refused};
use run_schedule::entries::RunSummary;

// The lines and the last line.
fn put_ended(out: &mut [u8], trace: &[u16], o: RunSummary) -> usize
    requires { (o.lines ≤ length (lines_of trace.now)) × (126 * o.lines < 4294967296) }
    ensures { (out.new ≡ put_from out.old 0
        (answer_text (take o.lines (lines_of trace.now)) (ran (end_number o.end) o.entries o.lines o.used)))
        × (result ≡ length (answer_text (take o.lines (lines_of trace.now)) (ran (end_number o.end) o.entries o.lines o.used))) }
{
    let at = put_lines(out, 0, trace, o.lines);
    put_end(
        out,
        at,
        u64::from(o.end.number()),
        o.entries as u64,
        u64::from(o.lines),
        u64::from(o.used),
    )
}

// What is printed for an answer, its lines being the first of the trace.
pub fn put_answer(out: &mut [u8], a: Result<RunSummary, Refusal>, trace: &[u16]) -> usize
    requires { (lines_no (answer_numbers a) ≤ length (lines_of trace.now))
        × (126 * lines_no (answer_numbers a) < 4294967296) }
    ensures { (out.new ≡ put_from out.old 0
        (answer_text (take (lines_no (answer_numbers a)) (lines_of trace.now)) (answer_numbers a)))
        × (result ≡ length (answer_text (take (lines_no (answer_numbers a)) (lines_of trace.now))
        (answer_numbers a))) }
{
    match a {
        Err(no) => put_refused(out, 0, u64::from(no.number()), no.place() as u64),
        Ok(o) => put_ended(out, trace, o),
    }
}
