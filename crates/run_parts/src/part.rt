// A process's part, lent on from the middle of the lent words.
ghost use Rattle.std.specs.Prelude.{◌≡◌, ◌+◌, ◌*◌, ◌<◌, ◌≤◌, length};
ghost use Rattle.run_values.specs.ValuesCode.{after_step};
ghost use Rattle.run_ops.specs.OpsCode.{step_op};
ghost use Rattle.run_parts.specs.PartsCode.{part_at, part_of, on_part};

use run_ops::step::step;
use run_store::references::ProcessNo;
use run_values::steps::StepResult;
use table::program::Program;

// Where the part of process n begins. It has 512 words (docs/LAYOUT.md).
pub fn part_at(n: ProcessNo) -> usize
    ensures { result ≡ part_at n.0 }
{
    512 + 512 * (n.0 as usize)
}

// The part of process n, to be read.
pub fn part(work: &[u32], n: ProcessNo) -> &[u32]
    requires { (8192 ≤ length work.now) × (n.0 < 8) }
    ensures { result.now ≡ part_of work.now n.0 }
{
    let from = part_at(n);
    let to = from + 512;
    &work[from..to]
}

// One step of process n.
pub fn step_process(p: &Program<'_>, work: &mut [u32], n: ProcessNo) -> StepResult
    requires { (8192 ≤ length work.old) × (n.0 < 8) }
    ensures { after_step result work.new ≡ on_part work.old n.0 (step_op p.now (part_of
        work.old n.0)) }
{
    let from = part_at(n);
    let to = from + 512;
    step(p, &mut work[from..to])
}
