// The holders brought up to date, in the table of ends and in the work store: the lines that were written since are
// read back from the trace.
ghost use Rattle.std.specs.Prelude.{◌≡◌, ◌-◌, ◌*◌, ◌≤◌, ◌<◌, length};
ghost use Rattle.run_holders.specs.HoldersCode.{holders_after_lines, changed_from};
ghost use Rattle.run_holders.specs.StoredCode.{stored_after_lines};

use super::notes::note_line;
use super::stored::store_line;
use trace::read::line_at;

// By the lines number `from` up to `to` of the trace, line `to` itself left out. The answer is whether one of them
// changes the table.
pub fn update_holders(
    t: &mut [[u16; 2]; 16],
    work: &mut [u32],
    trace: &[u16],
    from: u32,
    to: u32,
) -> bool
    requires { (from ≤ to) × (to < 16777216) × (6 * to ≤ length trace.now) }
    ensures { (t.new ≡ holders_after_lines t.old trace.now from (to - from))
        × (work.new ≡ stored_after_lines work.old trace.now from (to - from))
        × (result ≡ changed_from trace.now from (to - from)) }
{
    let mut changed = false;
    for i in from..to {
        let l = line_at(trace, i as usize);
        store_line(work, l);
        if note_line(t, l) {
            changed = true;
        }
    }
    changed
}
