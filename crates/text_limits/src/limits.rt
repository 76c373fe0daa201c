// The limits of all methods of a text, one after the other.
ghost use Rattle.std.specs.Prelude.{◌≡◌, ◌+◌, ◌*◌, ◌<◌, ◌≤◌, length, set, MatchResult};
ghost use Rattle.text_judge.specs.RowsCode.{copied};
ghost use Rattle.text_limits.specs.LimitsCode.{WellNamed, MethodThere, Over};
ghost use Rattle.text_limits.specs.MeasuresCode.{Judgement, LimitsSay};

use crate::method::{Judged, LimitPassed, judge_method};
use text_judge::rows::put_row;
use text_methods::methods::Methods;

// The length and the row of method k, kept for when the table is written.
fn keep(lengths: &mut [u16], rows: &mut [u16], k: usize, long: usize, row: &[u16])
    requires { (k < 32) × (long ≤ 4096) × (32 ≤ length lengths.old) × (576 ≤ length rows.old)
        × (length row.now ≡ 18) }
    ensures { (lengths.new ≡ set lengths.old k long)
        × (rows.new ≡ copied rows.old (18 * k) row.now 18) }
{
    lengths[k] = long as u16;
    put_row(rows, 18 * k, row);
}

// The first n words of a method's code copied among those kept, from word `at` on.
fn keep_code(kept: &mut [usize], at: usize, code: &[usize], n: usize)
    requires { (at + n ≤ length kept.old) × (n ≤ length code.now) }
    ensures { kept.new ≡ copied kept.old at code.now n }
{
    kept[at..at + n].copy_from_slice(&code[..n]);
}

// The next method: where no limit is passed with it, its length, its row and its code are kept.
fn judge_next(
    methods: &Methods<'_>,
    at: usize,
    k: usize,
    total: usize,
    pending: &mut [usize],
    code: &mut [usize],
    lengths: &mut [u16],
    rows: &mut [u16],
    kept: &mut [usize],
) -> Result<Judged, LimitPassed>
    requires { MethodThere methods.now.text.now at k × (k ≤ 32) × (total ≤ 4096)
        × (12288 ≤ length pending.old) × (8192 ≤ length code.old) × (32 ≤ length lengths.old)
        × (576 ≤ length rows.old) × (8192 ≤ length kept.old) }
    ensures { (h : MethodThere methods.now.text.now at k)
        → MatchResult result
        (λ j. Judgement methods.now.text.now at k h total j.at j.long lengths.old
        rows.old kept.old lengths.new rows.new kept.new)
        (λ e. Over methods.now.text.now at k h k total e.at) }
{
    let mut row = [0u16; 18];
    let mut scope = [0usize; 64];
    let judged = judge_method(methods, at, k, total, &mut row, &mut scope, pending, code)?;
    keep(lengths, rows, k, judged.long, &row);
    keep_code(kept, 2 * total, code, 2 * judged.long);
    Ok(judged)
}

// How many methods and instructions a text has.
#[derive(Clone, Copy)]
pub struct TableSize {
    pub methods: usize,
    pub instructions: usize,
}

// The methods are judged in text order: where no limit is passed with any of them, their lengths, their rows and their
// code are kept; else the first with which one is passed is answered.
pub fn limits(
    methods: &Methods<'_>,
    pending: &mut [usize],
    code: &mut [usize],
    lengths: &mut [u16],
    rows: &mut [u16],
    kept: &mut [usize],
) -> Result<TableSize, LimitPassed>
    requires { WellNamed methods.now.text.now × (12288 ≤ length pending.old) × (8192 ≤ length code.old)
        × (32 ≤ length lengths.old) × (576 ≤ length rows.old) × (8192 ≤ length kept.old) }
    ensures { (w : WellNamed methods.now.text.now)
        → LimitsSay w.program result lengths.new rows.new kept.new }
{
    let count = methods.method_count();
    let mut at = 0;
    let mut total = 0;
    for k in 0..count {
        let judged = judge_next(methods, at, k, total, pending, code, lengths, rows, kept)?;
        at = judged.at;
        total += judged.long;
    }
    Ok(TableSize {
        methods: count,
        instructions: total,
    })
}
