// The code of one method judged.
ghost use Rattle.std.specs.Prelude.{◌≡◌, true, List, ◌*◌, ◌≤◌, ◌<◌, length};
ghost use Rattle.std.specs.Option.{is_some};
ghost use Rattle.text.specs.Tree.{Program, main_first};
ghost use Rattle.text_parse.specs.Tokens.{Token, tokens_of};
ghost use Rattle.text_parse.specs.Grammar.{read, program_of};
ghost use Rattle.text_methods.specs.IndexCode.{Indexed};
ghost use Rattle.text_judge.specs.RowsCode.{judged};
ghost use Rattle.text_judge.specs.JudgeCode.{subject_in};
ghost use Rattle.text_judge.specs.ResumeCode.{IsMethod};
ghost use Rattle.text_judged.specs.JudgedCode.{MethodHere, kept_here, called_row, Numbered, CallsIn, Unmarked, Prepared, UpTo};

use crate::callee::callee_row;
use crate::words::number_calls;
use text_judge::code::{Judgement, begin};
use text_judge::instruction::Counts;
use text_judge::marked::Marked;
use text_judge::targets::mark_targets;

// Up to the first call.
fn to_call(text: &[u8], code: &[usize], m: &Marked) -> Judgement
    requires { Prepared text.now code.now m.now.code.now m.now.n }
    ensures { UpTo text.now code.now m.now.code.now m.now.own.now m.now.n result }
{
    let none = [0u16; 18];
    m.judge(&none, begin())
}

// A call, and on to the next one.
fn past_call(text: &[u8], methods: &[usize], code: &[usize], m: &Marked, j: Judgement) -> Judgement
    requires { Prepared text.now code.now m.now.code.now m.now.n
        × UpTo text.now code.now m.now.code.now m.now.own.now m.now.n j × (j.at < m.now.n.long)
        × (is_some j.pending ≡ true) × Indexed text.now methods.now }
    ensures { UpTo text.now code.now m.now.code.now m.now.own.now m.now.n result × (j.at < result.at) }
{
    let row = callee_row(text, methods, code[2 * j.at + 1]);
    let next = m.judge_call(&row, j);
    let none = [0u16; 18];
    m.judge(&none, next)
}

// All of it.
fn judge_all(text: &[u8], methods: &[usize], code: &[usize], m: &Marked) -> bool
    requires { Prepared text.now code.now m.now.code.now m.now.n × Indexed text.now methods.now }
    ensures { (ns : Program) (us : List Token) → program_of (tokens_of text.now) ≡ read ns us
        → result ≡ judged (subject_in m.now.code.now m.now.own.now m.now.n
        (called_row text.now (main_first ns) code.now)) }
{
    let mut j = to_call(text, code, m);
    while (j.at < m.n.long) & j.pending.is_some() {
        j = past_call(text, methods, code, m, j);
    }
    j.pending.is_some()
}

// With the targets of its jumps.
fn judge_words(
    text: &[u8],
    methods: &[usize],
    code: &[usize],
    words: &[u16],
    own: &[u16],
    targets: &mut [u8],
    n: Counts,
) -> bool
    requires { IsMethod words.now own.now n × CallsIn text.now code.now n.long
        × Numbered code.now words.now n.long × (2 * n.long ≤ length code.now) × (n.methods ≡ 4096)
        × (n.known ≡ 0) × Indexed text.now methods.now × Unmarked targets.old n.long }
    ensures { (ns : Program) (us : List Token) → program_of (tokens_of text.now) ≡ read ns us
        → result ≡ judged (subject_in words.now own.now n
        (called_row text.now (main_first ns) code.now)) }
{
    mark_targets(words, n.long, targets);
    let m = Marked {
        code: words,
        own,
        targets,
        n,
    };
    judge_all(text, methods, code, &m)
}

// With lent room for the code as words and for the marks.
fn kept_with(
    text: &[u8],
    methods: &[usize],
    code: &[usize],
    long: usize,
    own: &[u16],
    words: &mut [u16],
    targets: &mut [u8],
) -> bool
    requires { MethodHere text.now code.now own.now long × Indexed text.now methods.now
        × (2 * long ≤ length words.old) × Unmarked targets.old long }
    ensures { (h : MethodHere text.now code.now own.now long)
        → result ≡ kept_here h }
{
    let n = Counts {
        long,
        methods: 4096,
        known: 0,
    };
    number_calls(code, long, words);
    let part = &words[0..2 * long];
    judge_words(text, methods, code, part, own, targets, n)
}

// Filling arrays for the longest method would take longer than judging a short one, which most are.
fn short_kept(text: &[u8], methods: &[usize], code: &[usize], long: usize, own: &[u16]) -> bool
    requires { MethodHere text.now code.now own.now long × Indexed text.now methods.now × (long ≤ 128) }
    ensures { (h : MethodHere text.now code.now own.now long)
        → result ≡ kept_here h }
{
    let mut words = [0u16; 256];
    let mut targets = [0u8; 128];
    kept_with(text, methods, code, long, own, &mut words, &mut targets)
}

// Whether questions 4 and 5 say yes to the code of a method, which stands in `code` with the places of the called
// names; `methods` is the index of the text's methods.
pub fn method_kept(text: &[u8], methods: &[usize], code: &[usize], long: usize, own: &[u16]) -> bool
    requires { MethodHere text.now code.now own.now long × Indexed text.now methods.now }
    ensures { (h : MethodHere text.now code.now own.now long)
        → result ≡ kept_here h }
{
    if long <= 128 {
        return short_kept(text, methods, code, long, own);
    }
    let mut words = [0u16; 8192];
    let mut targets = [0u8; 4096];
    kept_with(text, methods, code, long, own, &mut words, &mut targets)
}
