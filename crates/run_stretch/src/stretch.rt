// Entries one after the other, as long as they name one process and are done here.
ghost use Rattle.std.specs.Prelude.{◌≡◌, true, ℕ, ◌+◌, ◌*◌, ◌-◌, ◌<◌, ◌≤◌, length, IfSome};
ghost use Rattle.table.specs.Table.{methods, offset_of};
ghost use Rattle.table.proofs.Accepted.{Kept};
ghost use Rattle.table.proofs.Owners.{Inside};
ghost use Rattle.run_store.specs.StoreCode.{head_of, put_top};
ghost use Rattle.run_ops.specs.OpsCode.{step_op};
ghost use Rattle.run_parts.specs.PartsCode.{part_of, with_part};
ghost use Rattle.run_cursor.specs.CursorCode.{laid, cursor, HeadFits};
ghost use Rattle.run_frames.specs.FramesCode.{Does};
ghost use Rattle.run_stretch.specs.StretchCode.{FrameRun, Halts, PlainSteps};

use super::turn::step_on;
use run_cursor::cursor::Cursor;
use run_frames::frames::{call, head_of, ret};
use run_parts::part::part_at;
use run_store::head::{Head, put_top};
use run_store::references::ProcessNo;
use std::ops::ControlFlow;

// The first entry that is not done, and where the top frame stands; halted where that entry names the process.
#[derive(Drop)]
pub struct StretchEnd {
    pub at: usize,
    pub cursor: Cursor,
    pub halted: bool,
}

// The entries of the top frame, up to one that names another process or is not done here.
fn run_frame(
    p: &[u16],
    start: usize,
    w: &mut [u32],
    h: Head,
    offset: u32,
    schedule: &[u8],
    from: usize,
    n: u8,
    c: Cursor,
) -> StretchEnd
    requires { HeadFits h w.old c × (h.status ≡ 1) × (offset ≡ offset_of p.now h.method) × (offset < 65536)
        × (start ≡ 2 + 20 * methods p.now) × Kept p.now × Inside p.now h.method c.place × (from ≤ length
        schedule.now) }
    ensures { PlainSteps p.now schedule.now n from (laid w.old h c) result.at (laid w.new h result.cursor)
        × HeadFits h w.new result.cursor × (result.at ≤ length schedule.now)
        × (result.halted ≡ true → Halts p.now schedule.now n h.method result.at result.cursor.place)
        × Inside p.now h.method result.cursor.place }
{
    let mut cursor = c;
    for at in from..schedule.len() {
        if schedule[at] != n {
            return StretchEnd {
                at,
                cursor,
                halted: false,
            };
        }
        match step_on(p, start, w, h, cursor, offset) {
            Some(next) => cursor = next,
            None => {
                return StretchEnd {
                    at,
                    cursor,
                    halted: true,
                };
            }
        }
    }
    StretchEnd {
        at: schedule.len(),
        cursor,
        halted: false,
    }
}

// The first instruction of a method and the one after its last.
#[derive(Drop)]
struct Span {
    first: u32,
    end: u32,
}

// They, where there is such a method.
fn span_of(p: &[u16], m: u32) -> Option<Span>
    requires { Kept p.now }
    ensures { IfSome result (λ s. (s.first < 65536) × ((i : ℕ) → s.first ≤ i → i < s.end → (s.first ≡ offset_of p.now
        m) × Inside p.now m i)) }
{
    if p[0] as u32 <= m {
        return None;
    }
    let at = 2 + 2 * (m as usize);
    let first = p[at] as u32;
    Some(Span {
        first,
        end: first + p[at + 1] as u32,
    })
}

// The head put back, and then CALL or RET, where its instruction stands at word `at`: whether it was done. The op is read
// before anything is written, so that what the loop has found out about it is still known, and an op of neither kind
// costs nothing here.
fn change_frame(p: &[u16], at: usize, w: &mut [u32], h: Head) -> bool
    requires { (length w.old ≡ 512) × (h.frames ≤ 8) × (h.pending ≤ 8) × (h.status ≡ 1) × (at ≡ 2 + 20 * methods p.now
        + 2 * h.place)
        × Kept p.now × Inside p.now h.method h.place × (head_of (put_top w.old h) ≡ h) }
    ensures { Does result (step_op p.now (put_top w.old h)) (put_top w.old h) w.new }
{
    let op = p[at] % 32;
    let a = p[at + 1];
    put_top(w, h);
    match op {
        12 => call(p, w, h, a),
        13 => ret(p, w, h),
        _ => false,
    }
}

// The entries of the top frame, its head h, with the CALL or RET that ends them; `first` is where its method starts. The
// answer is the first entry that is not done, and whether the process goes on there in the next frame.
fn run_head(
    p: &[u16],
    start: usize,
    w: &mut [u32],
    h: Head,
    first: u32,
    schedule: &[u8],
    from: usize,
    n: u8,
) -> ControlFlow<usize, usize>
    requires { HeadFits h w.old (cursor h.place h.pending) × (h ≡ head_of w.old) × (h.status ≡ 1) × (first ≡
        offset_of p.now h.method) × (first < 65536)
        × (start ≡ 2 + 20 * methods p.now) × Kept p.now × Inside p.now h.method h.place × (from ≤ length
        schedule.now) }
    ensures { FrameRun p.now schedule.now n from w.old w.exit.now result }
{
    let c = Cursor {
        place: h.place as usize,
        pending: h.pending,
    };
    let r = run_frame(p, start, w, h, first, schedule, from, n, c);
    let g = Head {
        place: r.cursor.place as u32,
        pending: r.cursor.pending,
        ..h
    };
    if !r.halted {
        put_top(w, g);
        return ControlFlow::Break(r.at);
    }
    if change_frame(p, start + 2 * r.cursor.place, w, g) {
        return ControlFlow::Continue(r.at + 1);
    }
    ControlFlow::Break(r.at)
}

// The same from the words of the process on, and back to them.
fn run_top(
    p: &[u16],
    start: usize,
    w: &mut [u32],
    schedule: &[u8],
    from: usize,
    n: u8,
) -> ControlFlow<usize, usize>
    requires { (start ≡ 2 + 20 * methods p.now) × Kept p.now × (from ≤ length schedule.now) × (length w.old ≡
        512) }
    ensures { FrameRun p.now schedule.now n from w.old w.exit.now result }
{
    let frames = w[2];
    if (frames < 1) | (8 < frames) {
        return ControlFlow::Break(from);
    }
    let h = head_of(w);
    if (h.status != 1) | (8 < h.pending) {
        return ControlFlow::Break(from);
    }
    let Some(s) = span_of(p, h.method) else {
        return ControlFlow::Break(from);
    };
    if (h.place < s.first) | (s.end <= h.place) {
        return ControlFlow::Break(from);
    }
    run_head(p, start, w, h, s.first, schedule, from, n)
}

// One frame after the other, as long as CALL and RET lead to the next.
fn run_frames(p: &[u16], start: usize, w: &mut [u32], schedule: &[u8], from: usize, n: u8) -> usize
    requires { (start ≡ 2 + 20 * methods p.now) × Kept p.now × (from ≤ length schedule.now) × (length w.old ≡
        512) }
    ensures { PlainSteps p.now schedule.now n from w.old result w.new
        × (result ≤ length schedule.now) }
{
    let mut k = from;
    loop {
        match run_top(p, start, w, schedule, k, n) {
            ControlFlow::Continue(next) => k = next,
            ControlFlow::Break(end) => return end,
        }
    }
}

// The entries of process n from `from` on; the answer is the first that is not done.
pub fn stretch(
    p: &[u16],
    start: usize,
    work: &mut [u32],
    schedule: &[u8],
    from: usize,
    n: u8,
) -> usize
    requires { (start ≡ 2 + 20 * methods p.now) × (8192 ≤ length work.old) × (from ≤ length schedule.now) × (n <
        8) × Kept p.now }
    ensures { PlainSteps p.now schedule.now n from (part_of work.old n) result
        (part_of work.new n)
        × (work.new ≡ with_part work.old n (part_of work.new n)) × (result ≤ length schedule.now) }
{
    let first = part_at(ProcessNo(n as u16));
    let end = first + 512;
    run_frames(p, start, &mut work[first..end], schedule, from, n)
}
