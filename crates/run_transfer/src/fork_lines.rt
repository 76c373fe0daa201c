// The lines of a FORK, and how many it has: one for the fork, and one for each thing given.
ghost use Rattle.std.specs.Prelude.{◌≡◌, ◌+◌, ◌-◌, ◌<◌, ◌≤◌, length};
ghost use Rattle.run_transfer.specs.ForkLinesCode.{gifts, things_in, gift_line, gift_added, gifts_added, fork_line, fork_written};

use super::forks::operand_of;
use run_store::references::ProcessNo;
use run_store::values::Val;
use trace_lines::{TraceLine, write_line};

// How many of the process's top `args` operands are things.
pub fn count_things(work: &[u32], n: ProcessNo, args: u16) -> u32
    requires { (8192 ≤ length work.now) × (n.0 < 8) }
    ensures { (result ≡ things_in work.now n.0 args args) × (result ≤ args) }
{
    let mut count: u32 = 0;
    for j in 0..args {
        let v = operand_of(work, n, args - j);
        if 3 <= v.tag {
            count += 1;
        }
    }
    count
}

// "6 gave to process a a thing b (3 qubit, 4 channel, 5 end 0, 6 end 1) of number c"
pub fn gift_line(entry: u16, from: ProcessNo, to: ProcessNo, v: Val) -> TraceLine
    ensures { result ≡ gift_line entry from.0 to.0 v }
{
    TraceLine {
        entry,
        process: from.0,
        kind: 6,
        a: to.0,
        b: (v.tag % 65536) as u16,
        c: (v.number % 65536) as u16,
    }
}

// The line of one value, where it is a thing. The answer is the number of the next line.
fn write_gift(
    trace: &mut [u16],
    line: u32,
    entry: u16,
    from: ProcessNo,
    to: ProcessNo,
    v: Val,
) -> u32
    requires { line < 16777216 }
    ensures { (gifts result trace.new
        ≡ gift_added (gifts line trace.old) entry from.0 to.0 v) × (result ≤ line + 1) }
{
    if v.tag < 3 {
        return line;
    }
    write_line(trace, line, gift_line(entry, from, to, v));
    line + 1
}

// "then a kind 6 line for each argument given, in order"
fn write_gifts(
    trace: &mut [u16],
    work: &[u32],
    line: u32,
    entry: u16,
    from: ProcessNo,
    to: ProcessNo,
    args: u16,
) -> u32
    requires { (8192 ≤ length work.now) × (from.0 < 8) × (line + args < 16777216) }
    ensures { gifts result trace.new
        ≡ gifts_added (gifts line trace.old) work.now entry from.0 to.0 args args }
{
    let mut next = line;
    for j in 0..args {
        let v = operand_of(work, from, args - j);
        next = write_gift(trace, next, entry, from, to, v);
    }
    next
}

fn fork_line(entry: u16, n: ProcessNo, child: ProcessNo, m: u16, args: u16) -> TraceLine
    ensures { result ≡ fork_line entry n.0 child.0 m args }
{
    TraceLine {
        entry,
        process: n.0,
        kind: 5,
        a: child.0,
        b: m,
        c: args,
    }
}

// "5 fork: child a, method b, P in c; then a kind 6 line for each argument given, in order". The answer is the number
// of the next line.
pub fn write_fork(
    trace: &mut [u16],
    work: &[u32],
    line: u32,
    entry: u16,
    n: ProcessNo,
    child: ProcessNo,
    m: u16,
    args: u16,
) -> u32
    requires { (8192 ≤ length work.now) × (n.0 < 8) × (line < 16000000) }
    ensures { gifts result trace.new
        ≡ fork_written trace.old work.now line entry n.0 child.0 m args }
{
    write_line(trace, line, fork_line(entry, n, child, m, args));
    write_gifts(trace, work, line + 1, entry, n, child, args)
}
