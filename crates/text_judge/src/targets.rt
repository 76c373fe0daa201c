// The targets of the jumps in a method's code.
ghost use Rattle.std.specs.Prelude.{◌≡◌, ◌*◌, ◌≤◌, length};
ghost use Rattle.check_arguments.specs.MarksCode.{marks};
ghost use Rattle.text_judge.specs.RowsCode.{marked_in};

// A mark at the target, where the op jumps; none where the target is past the end.
fn mark_jump(targets: &mut [u8], op: usize, at: usize)
    ensures { targets.new ≡ marks op at targets.old }
{
    if ((op == 17) | (op == 18)) & (at < targets.len()) {
        targets[at] = 1;
    }
}

// The targets of all jumps marked.
pub fn mark_targets(code: &[u16], long: usize, targets: &mut [u8])
    requires { (length code.now ≡ 2 * long) × (long ≤ 4096) }
    ensures { targets.new ≡ marked_in code.now long targets.old }
{
    for i in 0..long {
        mark_jump(targets, code[2 * i] as usize, code[2 * i + 1] as usize);
    }
}
