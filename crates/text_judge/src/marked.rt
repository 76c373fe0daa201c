// A method as it is judged.
ghost use Rattle.text_judge.specs.ResumeCode.{InMethod};

use crate::instruction::Counts;

// Its code and its row of the table, the marks at its jumps' targets, and the counts.
#[derive(Clone, Copy)]
pub struct Marked<'a> {
    pub code: &'a [u16],
    pub own: &'a [u16],
    pub targets: &'a [u8],
    pub n: Counts,
    pub ghost kept: { InMethod code.now own.now targets.now n },
}
