// A burst, its first entries at once where they name one process and nothing is known of the others.
ghost use Rattle.std.specs.Prelude.{◌≡◌, true, ◌+◌, ◌-◌, ◌*◌, ◌<◌, ◌≤◌, length, drop};
ghost use Rattle.table.proofs.Accepted.{Kept};
ghost use Rattle.run_burst.specs.KnowledgeCode.{nothing_known};
ghost use Rattle.run_burst.specs.BurstCode.{stops_at, burst_op, SameBurst};

use super::burst::{Burst, silent_entries};
use super::knowledge::Knowledge;
use run_stretch::stretch::stretch;
use table::program::Program;

// Entry k and the one after it name one process, as far as there are two.
fn names_again(schedule: &[u8], k: usize) -> bool
    requires { k ≤ length schedule.now }
    ensures { result ≡ true → k < length schedule.now }
{
    if schedule.len() <= k + 1 {
        return false;
    }
    schedule[k] == schedule[k + 1]
}

// The entries from k on that one process takes at once; the answer is the entry to go on with.
fn take_consecutive(
    p: &Program<'_>,
    work: &mut [u32],
    schedule: &[u8],
    k: usize,
    known: Knowledge,
) -> usize
    requires { (8192 ≤ length work.old) × (k ≤ length schedule.now) × Kept
        p.now }
    ensures { SameBurst p.now schedule.now known work.old k work.new result
        × (result ≤ length schedule.now) }
{
    if known.some {
        return k;
    }
    if !names_again(schedule, k) {
        return k;
    }
    let n = schedule[k];
    if 8 <= n {
        return k;
    }
    stretch(p.words(), p.start(), work, schedule, k, n)
}

// The first entries of a run, before which nothing is known: process 0 is the only one.
pub fn take_first(p: &Program<'_>, work: &mut [u32], schedule: &[u8]) -> usize
    requires { (8192 ≤ length work.old) × Kept p.now }
    ensures { SameBurst p.now schedule.now nothing_known work.old 0 work.new result
        × (result ≤ length schedule.now) × (drop 8256 work.new ≡ drop 8256 work.old) }
{
    stretch(p.words(), p.start(), work, schedule, 0, 0)
}

// The entries from `from` on, up to the first that needs more.
pub fn next_burst(
    p: &Program<'_>,
    work: &mut [u32],
    t: &[[u16; 2]; 16],
    schedule: &[u8],
    from: usize,
    known: Knowledge,
) -> Burst
    requires { (8192 ≤ length work.old) × (from ≤ length schedule.now) × Kept
        p.now }
    ensures { stops_at result work.new ≡ burst_op p.now t.now schedule.now
        work.old from known (length schedule.now - from) }
{
    let k = take_consecutive(p, work, schedule, from, known);
    silent_entries(p, work, t, schedule, k, known)
}
