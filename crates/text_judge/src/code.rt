// The code of a method judged, instruction by instruction.
ghost use Rattle.std.specs.Prelude.{◌≡◌, true, false, List, ℕ, ◌+◌, ◌≤◌, ◌<◌};
ghost use Rattle.std.proofs.Math.Option.{some};
ghost use Rattle.check_types.specs.PendingCode.{result_in, types_of};
ghost use Rattle.text_judge.specs.RowsCode.{Subject, IsRow, arg_in, judged_on, judged};
ghost use Rattle.text_judge.specs.JudgeCode.{subject_in, Knows, wanted};
ghost use Rattle.text_judge.specs.ResumeCode.{IsMethod, AtHand, Right, Onward};

use crate::instruction::{Counts, calling, instruction_at, judge_by};
use crate::marked::Marked;
use crate::targets::mark_targets;
use check_types::pending::Pending;

// How far a method is judged: the instruction that comes next, and the types pending before it, or a fault.
#[derive(Drop)]
pub struct Judgement {
    pub at: usize,
    pub pending: Option<Pending>,
}

// Nothing is judged yet.
pub fn begin() -> Judgement
    ensures { (result.at ≡ 0) × ((s : Subject) → Right s result) }
{
    Judgement {
        at: 0,
        pending: Some(Pending::nothing()),
    }
}

impl<'a> Marked<'a> {
    // Whether instruction i calls a method whose row is not at hand.
    fn wants_row(&self, i: usize) -> bool
        requires { i < self.now.n.long }
        ensures { result ≡ wanted self.now.code.now self.now.n i }
    {
        let a = self.code[2 * i + 1] as usize;
        calling(self.code[2 * i] as usize) & (self.n.known <= a) & (a < self.n.methods)
    }

    // Instruction i, with the rows that are at hand.
    fn judge_next(&self, rows: &[u16], i: usize, q: Pending) -> Option<Pending>
        requires { AtHand rows.now self.now.n × (i < self.now.n.long)
            × (wanted self.now.code.now self.now.n i ≡ false) }
        ensures { (f : ℕ → List ℕ) → Knows f rows.now self.now.n
            → result_in result
            ≡ judged_on (subject_in self.now.code.now self.now.own.now self.now.n f) i (some (types_of q)) }
    {
        let s = instruction_at(self.code, self.targets, self.n, i);
        let a = self.code[2 * i + 1] as usize;
        if calling(s.op) & (a < self.n.known) {
            let from = 18 * a;
            let row = &rows[from..from + 18];
            return judge_by(self.own, row, self.n.long, s, q);
        }
        let none = [0u16; 18];
        judge_by(self.own, &none, self.n.long, s, q)
    }

    // Instruction `j.at`, which calls the method with this row.
    pub fn judge_call(&self, callee: &[u16], j: Judgement) -> Judgement
        requires { IsRow callee.now × (j.at < self.now.n.long)
            × (wanted self.now.code.now self.now.n j.at ≡ true) }
        ensures { (result.at ≡ j.at + 1)
            × ((f : ℕ → List ℕ) → f (arg_in self.now.code.now j.at) ≡ callee.now
            → Right (subject_in self.now.code.now self.now.own.now self.now.n f) j
            → Right (subject_in self.now.code.now self.now.own.now self.now.n f) result) }
    {
        let at = j.at + 1;
        let Some(q) = j.pending else {
            return Judgement { at, pending: None };
        };
        let s = instruction_at(self.code, self.targets, self.n, j.at);
        Judgement {
            at,
            pending: judge_by(self.own, callee, self.n.long, s, q),
        }
    }

    // From `from` on, up to a fault, the end, or an instruction that calls a method whose row is not at hand.
    pub fn judge(&self, rows: &[u16], from: Judgement) -> Judgement
        requires { AtHand rows.now self.now.n × (from.at ≤ self.now.n.long) }
        ensures { Onward self.now.code.now self.now.own.now rows.now self.now.n from result }
    {
        let mut pending = from.pending;
        for i in from.at..self.n.long {
            let Some(q) = pending else {
                return Judgement { at: i, pending };
            };
            if self.wants_row(i) {
                return Judgement { at: i, pending };
            }
            pending = self.judge_next(rows, i, q);
        }
        Judgement {
            at: self.n.long,
            pending,
        }
    }
}

// Whether questions 4 and 5 say yes to all of a method's code, where the rows of all methods are at hand.
pub fn code_kept(code: &[u16], own: &[u16], rows: &[u16], n: Counts) -> bool
    requires { IsMethod code.now own.now n × AtHand rows.now n × (n.methods ≤ n.known) }
    ensures { (f : ℕ → List ℕ) → Knows f rows.now n
        → result ≡ judged (subject_in code.now own.now n f) }
{
    let mut targets = [0u8; 4096];
    mark_targets(code, n.long, &mut targets);
    let m = Marked {
        code,
        own,
        targets: &targets,
        n,
    };
    let j = m.judge(rows, begin());
    j.pending.is_some()
}
