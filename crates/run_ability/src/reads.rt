// What an entry reads of a process, its part lent on from the middle of the store.
ghost use Rattle.std.specs.Prelude.{◌≡◌, ◌+◌, ◌*◌, ◌<◌, ◌≤◌, length};
ghost use Rattle.run_parts.specs.ReadinessCode.{readiness_op, offer_of, offers_nothing};
ghost use Rattle.run_parts.specs.PartsCode.{part_of};
ghost use Rattle.run_ability.specs.ReadsCode.{argument_in, empty_in};

use run_parts::part::part;
use run_parts::readiness::{Readiness, offers_nothing, read_offer, read_readiness};
use run_store::blocks::any_empty;
use run_store::head::{Head, read_head};
use run_store::references::ProcessNo;
use run_values::steps::StepResult;
use table::program::Program;

pub fn readiness_of(p: &Program<'_>, work: &[u32], n: ProcessNo) -> Readiness
    requires { (8192 ≤ length work.now) × (n.0 < 8) }
    ensures { result ≡ readiness_op p.now (part_of work.now n.0) }
{
    read_readiness(p, part(work, n))
}

// The offer of process n, where its step answered that it stands at SEND or RECV.
pub fn offer_of(work: &[u32], n: ProcessNo, step: StepResult) -> Readiness
    requires { (8192 ≤ length work.now) × (n.0 < 8) }
    ensures { result ≡ offer_of (part_of work.now n.0) step }
{
    read_offer(part(work, n), step)
}

// Process n stands at no offer, and runs.
pub fn alone_of(p: &Program<'_>, work: &[u32], n: ProcessNo) -> bool
    requires { (8192 ≤ length work.now) × (n.0 < 8) }
    ensures { result ≡ offers_nothing p.now (part_of work.now n.0) }
{
    offers_nothing(p, part(work, n))
}

// The argument of the instruction that the top frame stands at.
fn argument(p: &Program<'_>, w: &[u32]) -> u16
    ensures { result ≡ argument_in p.now w.now }
{
    let h = read_head(w);
    p.argument(h.place)
}

pub fn argument_of(p: &Program<'_>, work: &[u32], n: ProcessNo) -> u16
    requires { (8192 ≤ length work.now) × (n.0 < 8) }
    ensures { result ≡ argument_in p.now (part_of work.now n.0) }
{
    argument(p, part(work, n))
}

// One of the top n values is emptied.
fn lacks(w: &[u32], args: u16) -> bool
    ensures { result ≡ empty_in w.now args }
{
    let h = read_head(w);
    any_empty(w, h.top(1), args)
}

pub fn lacks_of(work: &[u32], n: ProcessNo, args: u16) -> bool
    requires { (8192 ≤ length work.now) × (n.0 < 8) }
    ensures { result ≡ empty_in (part_of work.now n.0) args }
{
    lacks(part(work, n), args)
}
