// Whether a name is at fault where it stands.
ghost use Rattle.std.specs.Prelude.{◌≡◌, false, ◌≤◌, eqb, length};
ghost use Rattle.std.proofs.Math.Seq.{slice};
ghost use Rattle.text_names.specs.FaultCode.{is_call_at, is_invocation_at, is_known_at, fault_here, Knows};

use text_methods::arguments::count_arguments;
use text_methods::methods::Methods;
use text_open::open::is_open;
use text_roles::gate::{gate_number, gate_takes};
use text_roles::level::{found_level, level_of};

// A method has the name, and takes as many arguments as stand from `after` on.
fn is_call(methods: &Methods<'_>, start: usize, end: usize, after: usize) -> bool
    requires { (start ≤ end) × (end ≤ length methods.now.text.now) }
    ensures { result ≡ is_call_at methods.now.text.now (slice start end methods.now.text.now) after }
{
    let n = count_arguments(methods.text, after);
    match methods.find_indexed(start, end) {
        Ok(m) => n == m.params,
        Err(_) => false,
    }
}

// The same; where no method has the name, a gate does.
fn is_invocation(methods: &Methods<'_>, start: usize, end: usize, after: usize) -> bool
    requires { (start ≤ end) × (end ≤ length methods.now.text.now) }
    ensures { result ≡ is_invocation_at methods.now.text.now (slice start end methods.now.text.now) after }
{
    let n = count_arguments(methods.text, after);
    match methods.find_indexed(start, end) {
        Ok(m) => n == m.params,
        Err(_) => gate_takes(gate_number(methods.text, start, end), n),
    }
}

// The name is declared at this level or a deeper one, in the method whose tokens stand from a place on: known from the
// n entries, or where they did not fit from those tokens.
fn is_known(
    text: &[u8],
    words: &[usize],
    n: usize,
    from: usize,
    least: usize,
    start: usize,
    end: usize,
) -> bool
    ensures { Knows text.now words.now n from start end
        → result ≡ is_known_at text.now from least start end }
{
    if 1024 < n {
        return 0 < found_level(text, from, start, least, start, end);
    }
    is_open(text, words, n, least, start, end)
}

// The name from start up to end, of role r, with a bracket up to `after` after it; i methods are passed.
pub fn fault_here(
    methods: &Methods<'_>,
    words: &[usize],
    n: usize,
    from: usize,
    braces: usize,
    i: usize,
    r: u8,
    start: usize,
    end: usize,
    after: usize,
) -> bool
    requires { (start ≤ end) × (end ≤ length methods.now.text.now) }
    ensures { (eqb r 0 ≡ false → Knows methods.now.text.now words.now n from start end)
        → result ≡ fault_here methods.now.text.now from braces i r start end after }
{
    let text = methods.text;
    match r {
        1 => methods.index_of(start, end) < i,
        2 => is_known(text, words, n, from, level_of(braces), start, end),
        3 => !is_known(text, words, n, from, 1, start, end),
        4 => !is_call(methods, start, end, after),
        5 => !is_invocation(methods, start, end, after),
        _ => false,
    }
}
