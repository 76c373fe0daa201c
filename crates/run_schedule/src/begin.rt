// The store at the start of a run, whatever it held before.
ghost use Rattle.std.specs.Prelude.{◌≡◌, ◌≤◌, length};
ghost use Rattle.run_schedule.specs.BeginCode.{start_store};

use run_store::blocks::clear;
use run_store::references::ProcessNo;
use run_store::values::put;
use run_transfer::forks::begin_at;
use table::program::Program;

// "A run starts with process 0 at main's first instruction, its slots empty, nothing pending, nothing else made". No
// thing is made yet, so that none has a holder.
pub fn begin_run(p: &[u16], work: &mut [u32])
    requires { 8256 ≤ length work.old }
    ensures { work.new ≡ start_store p.now work.old 8192 }
{
    clear(work, 0, 8192);
    put(work, 0, 1);
    begin_at(&Program::of(p), work, ProcessNo(0), 0);
    work[8192..8256].fill(255);
}
