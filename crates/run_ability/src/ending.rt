// Whether the run can go on: "every process made has finished or stopped, end 1; none able to move (to step, meet or
// fault), end 2".
ghost use Rattle.std.specs.Prelude.{◌≡◌, ◌+◌, ◌*◌, ◌<◌, ◌≤◌, length};
ghost use Rattle.run_ability.specs.EndingCode.{ability_number, ability_op, ending_op};

use super::ends::{Ability, End};
use super::partner::is_moved;
use super::reads::readiness_of;
use run_parts::readiness::Readiness;
use run_store::references::ProcessNo;
use table::program::Program;

pub fn ability(p: &Program<'_>, work: &[u32], t: &[[u16; 2]; 16], n: ProcessNo) -> Ability
    requires { (8192 ≤ length work.now) × (n.0 < 8) }
    ensures { ability_number result ≡ ability_op p.now work.now t.now n.0 }
{
    let a = readiness_of(p, work, n);
    match a {
        Readiness::Idle => Ability::Over,
        Readiness::Moves => Ability::Able,
        _ if is_moved(p, work, t, n, a) => Ability::Able,
        _ => Ability::Waiting,
    }
}

// The end that the processes give; none where some process is able to move.
pub fn ending(p: &Program<'_>, work: &[u32], t: &[[u16; 2]; 16]) -> Option<End>
    requires { 8192 ≤ length work.now }
    ensures { result ≡ ending_op p.now work.now t.now 8 }
{
    let mut end = End::AllOver;
    for j in 0..8 {
        match ability(p, work, t, ProcessNo(j)) {
            Ability::Over => {}
            Ability::Able => return None,
            Ability::Waiting => end = End::NoneAble,
        }
    }
    Some(end)
}
