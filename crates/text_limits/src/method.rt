// The limits of one method.
ghost use Rattle.std.specs.Prelude.{◌≡◌, ◌&&◌, ◌||◌, not, ◌≤◌, eqb, get_or, length, MatchResult};
ghost use Rattle.std.proofs.Math.Seq.{slice};
ghost use Rattle.lists.specs.Lists.{same};
ghost use Rattle.text.specs.Tree.{ascii, main_first};
ghost use Rattle.text_code.specs.KeptCode.{CodeOf};
ghost use Rattle.text_limits.specs.LimitsCode.{MethodThere, is_within, Emitted, Within, Over};

use text_emit_method::method::{MethodAt, emit_method};
use text_judged::method::method_kept;
use text_methods::methods::Methods;
use text_tokens::bytes::is_word;

// Main has no parameter and no return type.
fn main_kept(text: &[u8], start: usize, end: usize, row: &[u16]) -> bool
    requires { length row.now ≡ 18 }
    ensures { result ≡ (not (same (slice start end text.now) (ascii "main"))
        || (eqb (get_or row.now 1 0) 0 && eqb (get_or row.now 0 0) 0)) }
{
    let main = is_word(text, start, end, b"main");
    !main | ((row[1] == 0) & (row[0] == 0))
}

// No limit is passed with the method whose code and row are written.
fn within_limits(
    methods: &Methods<'_>,
    code: &[usize],
    row: &[u16],
    m: &MethodAt,
    before: usize,
    total: usize,
) -> bool
    requires { Emitted methods.now.text.now code.now row.now m.now.start m.now.end m.now.long
        × (before ≤ 32) × (total ≤ 4096) }
    ensures { (h : Emitted methods.now.text.now code.now row.now m.now.start m.now.end
        m.now.long) → result ≡ is_within before total (main_first h.named.program) h.method }
{
    if 32 <= before {
        return false;
    }
    if 4096 < total + m.long {
        return false;
    }
    if 8 < row[1] {
        return false;
    }
    if !main_kept(methods.text, m.start, m.end, row) {
        return false;
    }
    method_kept(methods.text, methods.index, code, m.long, row)
}

// A limit is passed with the method whose name stands at this place.
#[derive(Clone, Copy, Debug, PartialEq, Eq)]
pub struct LimitPassed {
    pub at: usize,
}

// With a method no limit is passed: the place of its name, the place after it, and how many instructions it has.
#[derive(Clone, Copy)]
pub struct Judged {
    pub start: usize,
    pub at: usize,
    pub long: usize,
}

// The method that begins at a place, with so many methods and instructions before it.
pub fn judge_method(
    methods: &Methods<'_>,
    at: usize,
    before: usize,
    total: usize,
    row: &mut [u16; 18],
    scope: &mut [usize; 64],
    pending: &mut [usize],
    code: &mut [usize],
) -> Result<Judged, LimitPassed>
    requires { MethodThere methods.now.text.now at before × (before ≤ 32) × (total ≤ 4096)
        × (12288 ≤ length pending.old) × (8192 ≤ length code.old) × (length scope.old ≡ 64)
        × (length row.old ≡ 18) }
    ensures { (h : MethodThere methods.now.text.now at before)
        → MatchResult result
        (λ j. Within methods.now.text.now at before h before total j.at j.long row.new
        × CodeOf (main_first h.named.program) h.method code.new j.long
        × (j.start ≡ h.method.name.at))
        (λ e. Over methods.now.text.now at before h before total e.at) }
{
    let m = emit_method(methods.text, methods.index, at, row, scope, pending, code);
    if !m.ok {
        return Err(LimitPassed { at: m.start });
    }
    if within_limits(methods, code, row, &m, before, total) {
        Ok(Judged {
            start: m.start,
            at: m.at,
            long: m.long,
        })
    } else {
        Err(LimitPassed { at: m.start })
    }
}
