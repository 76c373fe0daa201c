// The holders of all qubits and ends in the 64 words of the work store from word 8,192 on: qubit q at 8,192 + q, end s
// of channel c at 8,224 + 2 c + s. Each line that names a holder changes its words; they are never worked out from the
// trace.
ghost use Rattle.std.specs.Prelude.{◌≡◌};
ghost use Rattle.trace.specs.ReadCode.{as_line};
ghost use Rattle.run_holders.specs.StoredCode.{qubit_stored, end_stored, channel_stored, gift_stored, stored_after};

use run_store::references::{ChannelNo, EndNo, ProcessNo, QubitNo};
use run_store::values::put;
use trace_lines::TraceLine;

fn store_qubit(work: &mut [u32], n: QubitNo, q: ProcessNo)
    ensures { work.new ≡ qubit_stored 8192 work.old n.0 q.0 }
{
    if n.0 < 32 {
        put(work, 8192 + (n.0 as usize), q.0 as u32);
    }
}

fn store_end(work: &mut [u32], e: EndNo, q: ProcessNo)
    ensures { work.new ≡ end_stored 8192 work.old e.0 e.1 q.0 }
{
    if e.0 < 16 {
        put(
            work,
            8192 + (32 + 2 * (e.0 as usize) + (e.1 as usize)),
            q.0 as u32,
        );
    }
}

fn store_channel(work: &mut [u32], c: ChannelNo, q: ProcessNo)
    ensures { work.new ≡ channel_stored 8192 work.old c.0 q.0 }
{
    store_end(work, EndNo(c.0, 0), q);
    store_end(work, EndNo(c.0, 1), q);
}

// A line of kind 6.
fn store_gift(work: &mut [u32], l: TraceLine)
    ensures { work.new ≡ gift_stored 8192 work.old (as_line l) }
{
    if l.b == 3 {
        store_qubit(work, QubitNo(l.c), ProcessNo(l.a));
        return;
    }
    if l.b == 4 {
        store_channel(work, ChannelNo(l.c), ProcessNo(l.a));
        return;
    }
    if l.b == 5 {
        store_end(work, EndNo(l.c, 0), ProcessNo(l.a));
        return;
    }
    if l.b == 6 {
        store_end(work, EndNo(l.c, 1), ProcessNo(l.a));
    }
}

pub fn store_line(work: &mut [u32], l: TraceLine)
    ensures { work.new ≡ stored_after 8192 work.old (as_line l) }
{
    if l.kind == 6 {
        store_gift(work, l);
        return;
    }
    if l.kind == 2 {
        store_channel(work, ChannelNo(l.a), ProcessNo(l.process));
        return;
    }
    if l.kind == 1 {
        store_qubit(work, QubitNo(l.a), ProcessNo(l.process));
    }
}
