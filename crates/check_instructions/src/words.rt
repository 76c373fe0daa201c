// The op and the argument of an instruction, read without a test of the table's length, which question 1 has looked at.
ghost use Rattle.std.specs.Prelude.{◌≡◌, ◌<◌, length};
ghost use Rattle.table.specs.Table.{word, methods, instructions, op_at, arg_at};
ghost use Rattle.table.proofs.Accepted.{Sizes};

// Word `at` of a table that reaches so far: the loops over the instructions need no test then.
fn word_within(p: &[u16], at: usize) -> usize
    requires { at < length p.now }
    ensures { (result ≡ word p.now at) × (result < 65536) }
{
    p[at] as usize
}

// The op of instruction i; `count` is the number of methods.
pub fn op_at(p: &[u16], count: usize, i: usize) -> usize
    requires { Sizes p.now × (count ≡ methods p.now) × (i < instructions p.now) }
    ensures { (result ≡ op_at p.now i) × (result < 65536) }
{
    word_within(p, 2 + 20 * count + 2 * i)
}

// Its argument.
pub fn arg_at(p: &[u16], count: usize, i: usize) -> usize
    requires { Sizes p.now × (count ≡ methods p.now) × (i < instructions p.now) }
    ensures { (result ≡ arg_at p.now i) × (result < 65536) }
{
    word_within(p, 3 + 20 * count + 2 * i)
}
