// An entry at SEND or RECV.
ghost use Rattle.std.specs.Prelude.{◌≡◌, ◌+◌, ◌*◌, ◌<◌, ◌≤◌, length};
ghost use Rattle.run_ability.specs.PairingCode.{Near};
ghost use Rattle.run_single.specs.ResultCode.{after_entry};
ghost use Rattle.run_entry.specs.MeetingCode.{exchange_op, meet_by};

use run_ability::pairing::{Meeting, Pairing};
use run_events::conclude::Single;
use run_gates::faults::{EMPTY, GONE};
use run_single::result::{Count, EntryResult};
use run_single::single::single;
use run_store::references::ProcessNo;
use run_transfer::meeting_lines::write_meeting;
use run_transfer::meetings::meet;
use table::program::Program;

// The two lines and the two parts, where the lines fit.
fn exchange(trace: &mut [u16], work: &mut [u32], room: usize, g: Count, m: Meeting) -> EntryResult
    requires { (8192 ≤ length work.old) × (m.sender.0 < 8) × (m.receiver.0 < 8) × (g.lines < 16000000) }
    ensures { after_entry result trace.new work.new
        ≡ exchange_op trace.old work.old room g m.sender.0 m.receiver.0 m.end m.value }
{
    if room < g.lines as usize + 2 {
        return EntryResult::Full;
    }
    let Meeting {
        sender,
        receiver,
        end,
        value,
    } = m;
    write_meeting(trace, g.lines, g.entry, sender, receiver, end, value);
    meet(work, sender, receiver, value);
    EntryResult::Taken {
        lines: g.lines + 2,
        used: g.used,
    }
}

// "20 .. before all others, and before waiting"; 33 where the partner has gone.
pub fn meet_entry(
    p: &Program<'_>,
    outcomes: &[u8],
    trace: &mut [u16],
    work: &mut [u32],
    room: usize,
    g: Count,
    n: ProcessNo,
    m: Pairing,
) -> EntryResult
    requires { (8192 ≤ length work.old) × (n.0 < 8) × (g.lines < 16000000)
        × Near m }
    ensures { after_entry result trace.new work.new
        ≡ meet_by p.now outcomes.now trace.old work.old room g n.0 m }
{
    match m {
        Pairing::NoOffer => single(p, outcomes, trace, work, room, g, n, Single::Fault(EMPTY)),
        Pairing::Waits => EntryResult::Unable,
        Pairing::PartnerGone => single(p, outcomes, trace, work, room, g, n, Single::Fault(GONE)),
        Pairing::Meets(m) => exchange(trace, work, room, g, m),
    }
}
