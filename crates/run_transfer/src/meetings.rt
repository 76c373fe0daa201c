// The meeting of two processes, each part lent on from the middle of the store.
ghost use Rattle.std.specs.Prelude.{◌≡◌, ◌+◌, ◌*◌, ◌<◌, ◌≤◌, length};
ghost use Rattle.run_parts.specs.PartsCode.{part_of, with_part};
ghost use Rattle.run_giving.specs.GivingCode.{sent_words, received_words};
ghost use Rattle.run_transfer.specs.TransferCode.{met_words};

use run_giving::{receive, send};
use run_parts::part::part_at;
use run_store::references::ProcessNo;
use run_store::values::Val;

fn send_from(work: &mut [u32], n: ProcessNo, v: Val)
    requires { (8192 ≤ length work.old) × (n.0 < 8) }
    ensures { work.new
        ≡ with_part work.old n.0 (sent_words (part_of work.old n.0) v) }
{
    let from = part_at(n);
    let to = from + 512;
    send(&mut work[from..to], v);
}

fn receive_at(work: &mut [u32], n: ProcessNo, v: Val)
    requires { (8192 ≤ length work.old) × (n.0 < 8) }
    ensures { work.new
        ≡ with_part work.old n.0 (received_words (part_of work.old n.0) v) }
{
    let from = part_at(n);
    let to = from + 512;
    receive(&mut work[from..to], v);
}

// "When either is named, both move on together."
pub fn meet(work: &mut [u32], sender: ProcessNo, receiver: ProcessNo, v: Val)
    requires { (8192 ≤ length work.old) × (sender.0 < 8) × (receiver.0 < 8) }
    ensures { work.new ≡ met_words work.old sender.0 receiver.0 v }
{
    send_from(work, sender, v);
    receive_at(work, receiver, v);
}
