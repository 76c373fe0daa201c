// The code of one method, from a buffer in which each call has the place of the called name.
ghost use Rattle.std.specs.Prelude.{◌≡◌, ◌*◌, ◌≤◌, ◌<◌, length};
ghost use Rattle.text_put.specs.TableCode.{Writes, called_at, argument_by, code_to};

use crate::order::number_in;
use crate::words::put_pair;
use text_methods::methods::Methods;
use text_tokens::next::next_token;

// The number of the method whose name stands at a place.
pub fn number_at(methods: &Methods<'_>, main: usize, a: usize) -> usize
    ensures { result ≡ called_at methods.now.text.now main a }
{
    if methods.text.len() < a {
        return 0;
    }
    let t = next_token(methods.text, a);
    number_in(main, methods.index_of(t.start, t.end))
}

// The argument in the table: CALL and FORK have a method's number.
fn argument_of(methods: &Methods<'_>, main: usize, op: usize, a: usize) -> usize
    ensures { result ≡ argument_by (called_at methods.now.text.now main) op a }
{
    if (op == 12) | (op == 14) {
        return number_at(methods, main, a);
    }
    a
}

pub fn put_code(
    methods: &Methods<'_>,
    main: usize,
    code: &[usize],
    long: usize,
    table: &mut [u16],
    at: usize,
) -> usize
    requires { (2 * long ≤ length code.now) × (long ≤ 4096) × (at < 20000) }
    ensures { Writes table.old at (code_to (called_at methods.now.text.now main) code.now long)
        table.new result }
{
    let mut i = at;
    for k in 0..long {
        let op = code[2 * k];
        let a = argument_of(methods, main, op, code[2 * k + 1]);
        i = put_pair(table, i, op, a);
    }
    i
}
