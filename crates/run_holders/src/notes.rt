// The table of ends brought up to date with one line.
ghost use Rattle.std.specs.Prelude.{◌≡◌};
ghost use Rattle.trace.specs.ReadCode.{as_line};
ghost use Rattle.run_holders.specs.HoldersCode.{holders_after, changes_holder};

use super::ends::note;
use trace_lines::TraceLine;

// A line of kind 6. A qubit is in no place of the table.
fn note_gift(t: &mut [[u16; 2]; 16], l: TraceLine) -> bool
    requires { l.kind ≡ 6 }
    ensures { (t.new ≡ holders_after t.old (as_line l)) × (result ≡ changes_holder (as_line l)) }
{
    if l.b < 4 {
        return false;
    }
    let u = note(*t, l);
    *t = u;
    true
}

// The table brought up to date with one line, and whether it changes a holder.
pub fn note_line(t: &mut [[u16; 2]; 16], l: TraceLine) -> bool
    ensures { (t.new ≡ holders_after t.old (as_line l)) × (result ≡ changes_holder (as_line l)) }
{
    if l.kind == 6 {
        return note_gift(t, l);
    }
    if l.kind != 2 {
        return false;
    }
    let u = note(*t, l);
    *t = u;
    true
}
