// A statement NAME(..); is a call of the first method of that name, or a gate where no method has it.
ghost use Rattle.text_methods.specs.IndexCode.{Indexed};
ghost use Rattle.text_emit.specs.EmitCode.{PutsInvocation};
ghost use Rattle.text_emit.specs.Reached.{reached, there};

use crate::emit::{Emit, put};
use text_methods::methods::Methods;
use text_roles::gate::gate_number;
use text_types::types::return_type;

// The name stands at start up to end.
pub fn put_invocation(
    text: &[u8],
    methods: &[usize],
    code: &mut [usize],
    e: Emit,
    start: usize,
    end: usize,
) -> Option<Emit>
    requires { Indexed text.now methods.now }
    ensures { PutsInvocation text.now start end (there e) code.old (reached result) code.new }
{
    if end < start {
        return None;
    }
    if text.len() < end {
        return None;
    }
    let methods = Methods {
        text,
        index: methods,
    };
    let Ok(m) = methods.method_indexed(start, end) else {
        let gate = gate_number(text, start, end);
        return put(code, e, 10, gate as usize);
    };
    let called = put(code, e, 12, start)?;
    match return_type(text, m.at) {
        Ok(t) if t.code != 0 => put(code, called, 5, 0),
        _ => Some(called),
    }
}
