// The two lines of a meeting.
ghost use Rattle.std.specs.Prelude.{◌≡◌, ◌<◌};
ghost use Rattle.run_transfer.specs.MeetingLinesCode.{met_line, passed_line, value_line, met_written};

use super::fork_lines::gift_line;
use run_store::references::ProcessNo;
use run_store::values::Val;
use trace_lines::{TraceLine, write_two};

// "7 met, process the sender: receiver a, channel b, sender's side c"
fn met_line(entry: u16, sender: ProcessNo, receiver: ProcessNo, e: Val) -> TraceLine
    ensures { result ≡ met_line entry sender.0 receiver.0 e }
{
    let side = if e.tag == 6 { 1 } else { 0 };
    TraceLine {
        entry,
        process: sender.0,
        kind: 7,
        a: receiver.0,
        b: (e.number % 65536) as u16,
        c: side,
    }
}

// "8: the value's low and high 16 bits"
fn passed_line(entry: u16, sender: ProcessNo, v: Val) -> TraceLine
    ensures { result ≡ passed_line entry sender.0 v }
{
    TraceLine {
        entry,
        process: sender.0,
        kind: 8,
        a: (v.number % 65536) as u16,
        b: (v.number / 65536) as u16,
        c: 65535,
    }
}

// "then a 6 line, or 8"
fn value_line(entry: u16, sender: ProcessNo, receiver: ProcessNo, v: Val) -> TraceLine
    ensures { result ≡ value_line entry sender.0 receiver.0 v }
{
    if v.tag < 3 {
        return passed_line(entry, sender, v);
    }
    gift_line(entry, sender, receiver, v)
}

pub fn write_meeting(
    trace: &mut [u16],
    line: u32,
    entry: u16,
    sender: ProcessNo,
    receiver: ProcessNo,
    e: Val,
    v: Val,
)
    requires { line < 16000000 }
    ensures { trace.new ≡ met_written trace.old line entry sender.0 receiver.0 e v }
{
    let first = met_line(entry, sender, receiver, e);
    let second = value_line(entry, sender, receiver, v);
    write_two(trace, line, first, second);
}
