// Where emission stands, and instructions written into the lent buffer.
ghost use Rattle.std.specs.Prelude.{◌≡◌, [], ◌∷◌, ◌*◌, ◌<◌};
ghost use Rattle.lists.specs.Lists.{put_from};
ghost use Rattle.text.specs.Translation.{instruction};
ghost use Rattle.text_emit_expr.specs.EndsCode.{gave_up, gone, Emission};

// The phase (specs/RestCode.antt), the place in the text, the brackets that are open above the last entry of the stack,
// the entries of the stack, and the instructions that are written.
#[derive(Clone, Copy)]
pub struct StateAt {
    pub phase: u8,
    pub at: usize,
    pub unclosed: usize,
    pub entries: usize,
    pub count: usize,
}

// More instructions than a table has, or a number too large for one.
pub fn gave_up(s: StateAt) -> StateAt
    ensures { result ≡ gave_up s }
{
    StateAt {
        phase: 4,
        at: s.at,
        unclosed: 0,
        entries: 0,
        count: s.count,
    }
}

// Another phase at another place, the stack and the buffer as they are.
pub fn gone(s: StateAt, phase: u8, at: usize) -> StateAt
    ensures { result ≡ gone s phase at }
{
    StateAt {
        phase,
        at,
        unclosed: s.unclosed,
        entries: s.entries,
        count: s.count,
    }
}

// Instruction number `count` of the buffer.
pub fn put(code: &mut [usize], count: usize, op: usize, argument: usize)
    requires { count < 4096 }
    ensures { code.new ≡ put_from code.old (2 * count) (op ∷ argument ∷ []) }
{
    slices::put(code, 2 * count, op);
    slices::put(code, 2 * count + 1, argument);
}

// The next instruction of the buffer; a table has 4096.
pub fn emit(
    code: &mut [usize],
    s: StateAt,
    op: usize,
    argument: usize,
    phase: u8,
    at: usize,
) -> StateAt
    ensures { Emission code.old s (instruction op argument) phase at code.new result }
{
    if 4096 <= s.count {
        return gave_up(s);
    }
    put(code, s.count, op, argument);
    StateAt {
        phase,
        at,
        unclosed: s.unclosed,
        entries: s.entries,
        count: s.count + 1,
    }
}
