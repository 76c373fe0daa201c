// An entry with one line.
ghost use Rattle.std.specs.Prelude.{◌≡◌, ◌+◌, ◌*◌, ◌<◌, ◌≤◌, length};
ghost use Rattle.run_gates.specs.GatesCode.{after_event};
ghost use Rattle.run_single.specs.ResultCode.{after_entry};
ghost use Rattle.run_single.specs.SingleCode.{concluded_at, counted_words, event_line, single_op};

use super::result::{Count, EntryResult};
use run_events::conclude::{Single, conclude};
use run_gates::event::EventResult;
use run_parts::part::part_at;
use run_store::references::ProcessNo;
use run_store::values::{get, low, put};
use table::program::Program;
use trace_lines::{TraceLine, write_line};

// The entry carried out in the process's part.
fn conclude_at(
    p: &Program<'_>,
    work: &mut [u32],
    n: ProcessNo,
    does: Single,
    outcomes: &[u8],
    used: u32,
) -> EventResult
    requires { (8192 ≤ length work.old) × (n.0 < 8) }
    ensures { after_event result work.new
        ≡ concluded_at p.now work.old n.0 does outcomes.now used }
{
    let qubits = get(work, 1);
    let channels = get(work, 2);
    let from = part_at(n);
    let to = from + 512;
    conclude(
        p,
        &mut work[from..to],
        does,
        qubits,
        channels,
        outcomes,
        used as usize,
    )
}

// A thing that was made is counted: kind 1 a qubit, kind 2 a channel.
fn count_made(work: &mut [u32], kind: u16)
    ensures { work.new ≡ counted_words work.old kind }
{
    if kind == 1 {
        let q = get(work, 1);
        put(work, 1, low(q as usize + 1));
        return;
    }
    if kind == 2 {
        let c = get(work, 2);
        put(work, 2, low(c as usize + 1));
    }
}

fn event_line(entry: u16, n: ProcessNo, t: EventResult) -> TraceLine
    ensures { result ≡ event_line entry n.0 t }
{
    TraceLine {
        entry,
        process: n.0,
        kind: t.kind,
        a: t.a,
        b: t.b,
        c: t.c,
    }
}

// An entry with one line.
pub fn single(
    p: &Program<'_>,
    outcomes: &[u8],
    trace: &mut [u16],
    work: &mut [u32],
    room: usize,
    g: Count,
    n: ProcessNo,
    does: Single,
) -> EntryResult
    requires { (8192 ≤ length work.old) × (n.0 < 8)
        × (g.lines < 16000000) }
    ensures { after_entry result trace.new work.new
        ≡ single_op p.now outcomes.now trace.old work.old
        room g n.0 does }
{
    if room <= g.lines as usize {
        return EntryResult::Full;
    }
    let t = conclude_at(p, work, n, does, outcomes, g.used);
    count_made(work, t.kind);
    write_line(trace, g.lines, event_line(g.entry, n, t));
    EntryResult::Taken {
        lines: g.lines + 1,
        used: low(g.used as usize + t.used as usize),
    }
}
