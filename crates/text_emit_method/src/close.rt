// "At the end of every method: RET if void, else GET hole, RET, also behind a return."
ghost use Rattle.text_emit.specs.Reached.{reached, there};
ghost use Rattle.text_emit_method.specs.StepsCode.{Ends};

use text_emit::emit::{Emit, put};

// The hole is one slot more, of the return type.
pub fn close(row: &mut [u16; 18], code: &mut [usize], e: Emit, returns: u8) -> Option<Emit>
    ensures { Ends returns (there e) row.old code.old (reached result) row.new code.new }
{
    if returns == 0 {
        return put(code, e, 13, 0);
    }
    if 15 < e.used {
        return None;
    }
    row[2 + e.used] = returns as u16;
    let got = put(code, e, 3, e.used)?;
    put(code, got, 13, 0)
}
