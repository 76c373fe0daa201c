// What an offer comes to: who sends to whom, and what.
ghost use Rattle.std.specs.Prelude.{◌≡◌, ◌+◌, ◌*◌, ◌<◌, ◌≤◌, length};
ghost use Rattle.run_ability.specs.PairingCode.{paired_of, pair_with, pairing_op};

use super::partner::{is_no_other, opposite};
use super::reads::{offer_of, readiness_of};
use run_holders::ends::holder_of;
use run_parts::readiness::{Readiness, meets};
use run_store::references::ProcessNo;
use run_store::values::Val;
use run_values::steps::StepResult;
use table::program::Program;

// Who sends to whom, with the sender's end and the value.
#[derive(Clone, Copy)]
pub struct Meeting {
    pub sender: ProcessNo,
    pub receiver: ProcessNo,
    pub end: Val,
    pub value: Val,
}

// What an offer comes to: there is none; it waits; it meets its partner; its partner has gone.
#[derive(Clone, Copy)]
pub enum Pairing {
    NoOffer,
    Waits,
    Meets(Meeting),
    PartnerGone,
}

// Process n, whose readiness is a, and process q, whose readiness is b, where the two meet.
#[tactic(auto, unfolding(crate::specs::PairingCode::paired_of, crate::specs::PairingCode::received_of))]
fn pair_of(n: ProcessNo, a: Readiness, q: ProcessNo, b: Readiness) -> Pairing
    ensures { result ≡ paired_of n.0 a q.0 b }
{
    match (a, b) {
        (Readiness::Sends { end, value }, _) => Pairing::Meets(Meeting {
            sender: n,
            receiver: q,
            end,
            value,
        }),
        (_, Readiness::Sends { end, value }) => Pairing::Meets(Meeting {
            sender: q,
            receiver: n,
            end,
            value,
        }),
        _ => Pairing::Waits,
    }
}

// The offer a of process n, where the opposite end is held by q.
fn pair_with(p: &Program<'_>, work: &[u32], n: ProcessNo, a: Readiness, q: ProcessNo) -> Pairing
    requires { 8192 ≤ length work.now }
    ensures { result ≡ pair_with p.now work.now n.0 a q.0 }
{
    if is_no_other(n, q) {
        return Pairing::PartnerGone;
    }
    let b = readiness_of(p, work, q);
    match b {
        Readiness::Idle => Pairing::PartnerGone,
        _ if meets(a, b) => pair_of(n, a, q, b),
        _ => Pairing::Waits,
    }
}

// What the offer of process n comes to, where its step answered that it stands at SEND or RECV.
pub fn pair_up(
    p: &Program<'_>,
    work: &[u32],
    t: &[[u16; 2]; 16],
    n: ProcessNo,
    step: StepResult,
) -> Pairing
    requires { (8192 ≤ length work.now) × (n.0 < 8) }
    ensures { result ≡ pairing_op p.now work.now t.now n.0 step }
{
    let a = offer_of(work, n, step);
    match a {
        Readiness::Idle | Readiness::Moves => Pairing::NoOffer,
        _ => pair_with(p, work, n, a, holder_of(t, opposite(a))),
    }
}
