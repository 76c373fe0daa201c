// Whether an offer moves its process, by the holder of the opposite end.
ghost use Rattle.std.specs.Prelude.{◌≡◌, ◌+◌, ◌*◌, ◌≤◌, ◌%◌, length};
ghost use Rattle.run_parts.specs.ReadinessCode.{end_offered};
ghost use Rattle.run_ability.specs.PartnerCode.{opposite_of, is_no_other, is_moving, partner_op};

use super::reads::readiness_of;
use run_holders::ends::holder_of;
use run_parts::readiness::{Readiness, meets};
use run_store::references::{EndNo, ProcessNo};
use table::program::Program;

// The end that a partner needs: the other side of the same channel (tag 5 is side 0, tag 6 side 1).
#[tactic(auto, unfolding(crate::specs::PartnerCode::opposite_of))]
pub fn opposite(a: Readiness) -> EndNo
    ensures { (result.0 ≡ (end_offered a).number % 65536) × (result.1 ≡ opposite_of (end_offered a).tag) }
{
    let end = a.end();
    let c = (end.number % 65536) as u16;
    EndNo(c, if end.tag == 5 { 1 } else { 0 })
}

// The holder q of the opposite end is process n itself, or can be no process.
#[tactic(auto, unfolding(crate::specs::PartnerCode::is_no_other))]
pub fn is_no_other(n: ProcessNo, q: ProcessNo) -> bool
    ensures { result ≡ is_no_other n.0 q.0 }
{
    (q.0 == n.0) | (8 <= q.0)
}

// The offer a moves process n: its partner is ready, or has gone, which is fault 33.
pub fn is_moved(
    p: &Program<'_>,
    work: &[u32],
    t: &[[u16; 2]; 16],
    n: ProcessNo,
    a: Readiness,
) -> bool
    requires { 8192 ≤ length work.now }
    ensures { result ≡ is_moving (partner_op p.now work.now t.now n.0 a) }
{
    let q = holder_of(t, opposite(a));
    if is_no_other(n, q) {
        return true;
    }
    let b = readiness_of(p, work, q);
    match b {
        Readiness::Idle => true,
        _ => meets(a, b),
    }
}
