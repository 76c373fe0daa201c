// The lowest place at which a name is at fault.
ghost use Rattle.std.specs.Prelude.{◌≡◌, false, cond, ◌^◌, ◌<◌, eqb, length, IfOk, IsOk};
ghost use Rattle.text_open.specs.ClassCode.{in_class};
ghost use Rattle.text_names.specs.FaultsCode.{index_after, lower_of};
ghost use Rattle.text_names.specs.FaultCode.{lowest_fault, lowest_in, Refuses};
ghost use Rattle.text_names.specs.Answer.{fault_in};

use crate::fault::fault_here;
use text_methods::braces::braces_after;
use text_methods::methods::Methods;
use text_open::class::{declared_if, in_class, keeps, kind_if, role_if};
use text_open::open::open_after;
use text_roles::scan::{mode_after, role};
use text_tokens::kinds::END;
use text_tokens::next::next_token;

// A pass over the names could not keep all that are declared.
#[derive(Clone, Copy, PartialEq, Eq)]
struct TooManyNames;

// The lower of two places, where there are any.
fn lower_place(low: Option<usize>, fault: Option<usize>) -> Option<usize>
    ensures { fault_in result ≡ lower_of (fault_in low) (fault_in fault) }
{
    match (low, fault) {
        (Some(i), Some(j)) => Some(i.min(j)),
        (Some(_), None) => low,
        (None, _) => fault,
    }
}

// A method's tokens are gone over from after its name on.
fn from_after(r: u8, from: usize, end: usize) -> usize
    ensures { result ≡ cond (eqb r 1) end from }
{
    if r == 1 {
        return end;
    }
    from
}

fn index_after(r: u8, i: usize) -> usize
    requires { i < 2 ^ 63 }
    ensures { result ≡ index_after r i }
{
    if r == 1 {
        return i + 1;
    }
    i
}

// A pass over the names, all of them or those of a class, but for a missing main.
fn lowest_in(
    methods: &Methods<'_>,
    words: &mut [usize],
    all: bool,
    class: usize,
) -> Result<Option<usize>, TooManyNames>
    requires { length words.old ≡ 3072 }
    ensures { IfOk result (λ low. fault_in low ≡ lowest_in (in_class all class) methods.now.text.now)
        × (all ≡ false → IsOk result) }
{
    let text = methods.text;
    let mut mode = 0;
    let mut braces = 0;
    let mut from = 0;
    let mut index = 0;
    let mut n = 0;
    let mut low = None;
    let mut t = next_token(text, 0);
    let mut kind = t.kind;
    while kind != END {
        let u = next_token(text, t.end);
        let r = role(mode, braces, t.kind, u.kind);
        let mine = in_class(text, t.start, t.end, all, class);
        let asked = role_if(mine, r);
        let fault = fault_here(
            methods, words, n, from, braces, index, asked, t.start, t.end, u.end,
        );
        low = lower_place(low, fault.then_some(t.start));
        n = open_after(words, n, braces, declared_if(mine, r), t.start, t.end);
        from = from_after(r, from, t.end);
        index = index_after(r, index);
        mode = mode_after(mode, braces, t.kind);
        braces = braces_after(braces, t.kind);
        kind = kind_if(keeps(all, n), u.kind);
        t = u;
    }
    if keeps(all, n) {
        Ok(low)
    } else {
        Err(TooManyNames)
    }
}

// One pass for each class.
fn lowest_by_classes(methods: &Methods<'_>, words: &mut [usize]) -> Option<usize>
    requires { length words.old ≡ 3072 }
    ensures { fault_in result ≡ lowest_fault methods.now.text.now }
{
    let mut low = None;
    for class in 0..251 {
        let here = lowest_in(methods, words, false, class).unwrap();
        low = lower_place(low, here);
    }
    low
}

fn lowest_with(methods: &Methods<'_>, words: &mut [usize]) -> Option<usize>
    requires { length words.old ≡ 3072 }
    ensures { fault_in result ≡ lowest_fault methods.now.text.now }
{
    match lowest_in(methods, words, true, 0) {
        Ok(low) => low,
        Err(TooManyNames) => lowest_by_classes(methods, words),
    }
}

// Of all faults but a missing main.
fn lowest_fault(methods: &Methods<'_>) -> Option<usize>
    ensures { fault_in result ≡ lowest_fault methods.now.text.now }
{
    let mut words = [0usize; 3072];
    lowest_with(methods, &mut words)
}

// The place of refusal 31, where it is said: "31 when a name is undeclared, declared twice in one block or twice as a
// method, or called with a wrong argument count", at its lowest place; "a missing main is 31 at the text's end". The
// text is in the grammar.
pub fn name_fault(methods: &Methods<'_>) -> Option<usize>
    ensures { Refuses methods.now.text.now (fault_in result) }
{
    let lowest = lowest_fault(methods);
    match methods.find_word(b"main") {
        Ok(_) => lowest,
        Err(_) => lower_place(lowest, Some(methods.text.len())),
    }
}
