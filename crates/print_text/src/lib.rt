// What the printing program prints for the bytes of a file, "A run given whole": `print_text` writes it into a lent
// buffer, for any bytes, and answers how long it is. What does not fit the buffer is left out, and counted.
// The contracts say nothing of the time taken.
#![tactic(auto)]

mod answer;

ghost use Rattle.std.specs.Prelude.{◌≡◌, true, length};
ghost use Rattle.print_format.specs.Format.{well_built, words_of, part_of, run_text, printed};
ghost use Rattle.lists.specs.Lists.{put_from};

use answer::put_answer;
use print_input::{number_at, put_words, well_built};
use print_lines::writing::put_refused;
use run::run;

// "Its trace holds 4,096 lines." The work store has the 8,256 words that a run asks for.
fn put_run(program: &[u16], schedule: &[u8], outcomes: &[u8], out: &mut [u8]) -> usize
    ensures { (out.new ≡ put_from out.old 0
        (run_text program.now schedule.now outcomes.now))
        × (result ≡ length (run_text program.now schedule.now outcomes.now)) }
{
    let mut trace = [0u16; 24576];
    let mut work = [0u32; 8256];
    let a = run(program, schedule, outcomes, &mut trace, &mut work);
    put_answer(out, a, &trace)
}

// The parts of a file that is well built.
fn put_parts(file: &[u8], out: &mut [u8]) -> usize
    requires { well_built file.now ≡ true }
    ensures { (out.new ≡ put_from out.old 0
        (run_text (words_of (part_of file.now 0)) (part_of file.now 1)
        (part_of file.now 2)))
        × (result ≡ length (run_text (words_of (part_of file.now 0)) (part_of file.now 1)
        (part_of file.now 2))) }
{
    let mut words = [0u16; 32768];
    let from = number_at(file, 0) as u32;
    let size = number_at(file, 4) as u32;
    let n = put_words(file, from, size, &mut words);
    let a = number_at(file, 8) as usize;
    let b = number_at(file, 16) as usize;
    let e = file.len();
    put_run(&words[..n], &file[a..b], &file[b..e], out)
}

// "A file otherwise built, longer, or with an odd program length prints "refused 9 0"".
pub fn print_text(file: &[u8], out: &mut [u8]) -> usize
    ensures { (out.new ≡ put_from out.old 0 (printed file.now))
        × (result ≡ length (printed file.now)) }
{
    if !well_built(file) {
        return put_refused(out, 0, 9, 0);
    }
    put_parts(file, out)
}
