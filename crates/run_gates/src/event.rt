// What an op that writes one line answers.
ghost use Rattle.std.specs.Prelude.{◌≡◌};
ghost use Rattle.run_gates.specs.GatesCode.{fault_event, line_event, measured_event};

// The fault, 0 for none; how many outcomes are used; and the line after its entry and process.
#[derive(Clone, Copy)]
pub struct EventResult {
    pub code: u32,
    pub used: u32,
    pub kind: u16,
    pub a: u16,
    pub b: u16,
    pub c: u16,
}

fn answer(code: u32, used: u32, kind: u16, a: u16, b: u16, c: u16) -> EventResult
    ensures { result ≡ record { code = code; used = used; kind = kind; a = a; b = b; c = c } }
{
    EventResult {
        code,
        used,
        kind,
        a,
        b,
        c,
    }
}

// "10 stopped by fault a."; faults "use no outcome".
pub fn fault(n: u16) -> EventResult
    ensures { result ≡ fault_event n }
{
    answer(n as u32, 0, 10, n, 65535, 65535)
}

pub fn line(kind: u16, a: u16, b: u16, c: u16) -> EventResult
    ensures { result ≡ line_event kind a b c }
{
    answer(0, 0, kind, a, b, c)
}

// "4 qubit a measured b"; the one op that uses an outcome.
pub fn measured(q: u16, outcome: u8) -> EventResult
    ensures { result ≡ measured_event q outcome }
{
    answer(0, 1, 4, q, outcome as u16, 65535)
}
