// "Each channel has two ends, each with one holder": 16 channels by 2 ends, the holder's number at each, 65535 for
// nobody. One line of the trace changes one place or, where it speaks of a channel, the channel's two.
ghost use Rattle.std.specs.Prelude.{◌≡◌};
ghost use Rattle.trace.specs.ReadCode.{as_line};
ghost use Rattle.run_holders.specs.HoldersCode.{nobody, holder_in, end_given, channel_given, holders_after};

use run_store::references::{ChannelNo, EndNo, ProcessNo};
use trace_lines::TraceLine;

pub fn no_holders() -> [[u16; 2]; 16]
    ensures { result ≡ nobody }
{
    [[65535; 2]; 16]
}

// The holder of an end, 65535 where there is no such end.
pub fn holder_of(t: &[[u16; 2]; 16], e: EndNo) -> ProcessNo
    ensures { result.0 ≡ holder_in t.now e.0 e.1 }
{
    let c = e.0 as usize;
    let d = e.1 as usize;
    if c < 16 {
        if d < 2 {
            return ProcessNo(t[c][d]);
        }
    }
    ProcessNo(65535)
}

// One place changed.
pub fn give_end(mut t: [[u16; 2]; 16], e: EndNo, q: ProcessNo) -> [[u16; 2]; 16]
    ensures { result ≡ end_given t e.0 e.1 q.0 }
{
    let c = e.0 as usize;
    let d = e.1 as usize;
    if c < 16 {
        if d < 2 {
            t[c][d] = q.0;
        }
    }
    t
}

pub fn give_channel(t: [[u16; 2]; 16], c: ChannelNo, q: ProcessNo) -> [[u16; 2]; 16]
    ensures { result ≡ channel_given t c.0 q.0 }
{
    let u = give_end(t, EndNo(c.0, 0), q);
    give_end(u, EndNo(c.0, 1), q)
}

// The table after one more line.
pub fn note(t: [[u16; 2]; 16], l: TraceLine) -> [[u16; 2]; 16]
    ensures { result ≡ holders_after t (as_line l) }
{
    if l.kind == 2 {
        return give_channel(t, ChannelNo(l.a), ProcessNo(l.process));
    }
    if l.kind != 6 {
        return t;
    }
    if l.b == 4 {
        return give_channel(t, ChannelNo(l.c), ProcessNo(l.a));
    }
    if l.b == 5 {
        return give_end(t, EndNo(l.c, 0), ProcessNo(l.a));
    }
    if l.b == 6 {
        return give_end(t, EndNo(l.c, 1), ProcessNo(l.a));
    }
    t
}
