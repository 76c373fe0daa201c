// An entry at FORK.
ghost use Rattle.std.specs.Prelude.{◌≡◌, ◌+◌, ◌*◌, ◌<◌, ◌≤◌, length};
ghost use Rattle.run_single.specs.ResultCode.{after_entry};
ghost use Rattle.run_entry.specs.ForkCode.{start_op, try_op, fork_op};

use run_ability::reads::{argument_of, lacks_of};
use run_events::conclude::Single;
use run_gates::faults::{EMPTY, PROCESS_BEYOND_8};
use run_single::result::{Count, EntryResult};
use run_single::single::single;
use run_store::references::ProcessNo;
use run_store::values::get;
use run_transfer::fork_lines::{count_things, write_fork};
use run_transfer::forks::fork;
use table::program::Program;

// The child started with its arguments, where its lines fit.
fn start_child(
    p: &Program<'_>,
    trace: &mut [u16],
    work: &mut [u32],
    room: usize,
    g: Count,
    n: ProcessNo,
    child: ProcessNo,
    m: u16,
    args: u16,
) -> EntryResult
    requires { (8192 ≤ length work.old) × (n.0 < 8) × (child.0 < 8) × (g.lines < 16000000) }
    ensures { after_entry result trace.new work.new
        ≡ start_op p.now trace.old work.old room g n.0 child.0 m args }
{
    let things = count_things(work, n, args);
    if room < g.lines as usize + 1 + things as usize {
        return EntryResult::Full;
    }
    let next = write_fork(trace, work, g.lines, g.entry, n, child, m, args);
    fork(p, work, n, child, m, args);
    EntryResult::Taken {
        lines: next,
        used: g.used,
    }
}

// "20 .. before all others"; "23 process beyond 8".
fn try_fork(
    p: &Program<'_>,
    outcomes: &[u8],
    trace: &mut [u16],
    work: &mut [u32],
    room: usize,
    g: Count,
    n: ProcessNo,
    m: u16,
    args: u16,
) -> EntryResult
    requires { (8192 ≤ length work.old) × (n.0 < 8)
        × (g.lines < 16000000) }
    ensures { after_entry result trace.new work.new
        ≡ try_op p.now outcomes.now trace.old work.old
        room g n.0 m args }
{
    if lacks_of(work, n, args) {
        return single(p, outcomes, trace, work, room, g, n, Single::Fault(EMPTY));
    }
    let made = get(work, 0);
    if 8 <= made {
        return single(
            p,
            outcomes,
            trace,
            work,
            room,
            g,
            n,
            Single::Fault(PROCESS_BEYOND_8),
        );
    }
    start_child(p, trace, work, room, g, n, ProcessNo(made as u16), m, args)
}

pub fn fork_entry(
    p: &Program<'_>,
    outcomes: &[u8],
    trace: &mut [u16],
    work: &mut [u32],
    room: usize,
    g: Count,
    n: ProcessNo,
) -> EntryResult
    requires { (8192 ≤ length work.old) × (n.0 < 8)
        × (g.lines < 16000000) }
    ensures { after_entry result trace.new work.new
        ≡ fork_op p.now outcomes.now trace.old work.old room g n.0 }
{
    let m = argument_of(p, work, n);
    let args = p.params(m);
    try_fork(p, outcomes, trace, work, room, g, n, m, args)
}
