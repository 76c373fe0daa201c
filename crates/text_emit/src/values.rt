// A value stored: "assignment then DROP", and for a channel with ends "PUT c, END 0, PUT a, DROP, GET c, END 1, PUT b,
// DROP", where the ends have the two slots after the channel's.
ghost use Rattle.std.specs.Prelude.{◌≡◌, ◌<◌};
ghost use Rattle.text.specs.Translation.{assign_code};
ghost use Rattle.text_emit.specs.EmitCode.{Puts, PutsValue, ends_first, ends_second};
ghost use Rattle.text_emit.specs.Reached.{reached, there};

use crate::emit::{Emit, put};

fn put_first_end(code: &mut [usize], e: Emit, slot: usize) -> Option<Emit>
    requires { slot < 65536 }
    ensures { Puts (ends_first slot) (there e) code.old (reached result) code.new }
{
    let stored = put(code, e, 4, slot)?;
    let taken = put(code, stored, 9, 0)?;
    let kept = put(code, taken, 4, slot + 1)?;
    put(code, kept, 5, 0)
}

fn put_second_end(code: &mut [usize], e: Emit, slot: usize) -> Option<Emit>
    requires { slot < 65536 }
    ensures { Puts (ends_second slot) (there e) code.old (reached result) code.new }
{
    let got = put(code, e, 3, slot)?;
    let taken = put(code, got, 9, 1)?;
    let kept = put(code, taken, 4, slot + 2)?;
    put(code, kept, 5, 0)
}

pub fn put_value(code: &mut [usize], e: Emit, slot: usize, ends: bool) -> Option<Emit>
    ensures { PutsValue slot ends (there e) code.old (reached result) code.new }
{
    if 65536 <= slot {
        return None;
    }
    if ends {
        let first = put_first_end(code, e, slot)?;
        return put_second_end(code, first, slot);
    }
    let stored = put(code, e, 4, slot)?;
    put(code, stored, 5, 0)
}
