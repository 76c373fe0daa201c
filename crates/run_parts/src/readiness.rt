// A process's stand, read from its part of the work store; nothing is changed.
ghost use Rattle.std.specs.Prelude.{◌≡◌, ◌+◌, ◌*◌};
ghost use Rattle.run_store.specs.StoreCode.{head_of};
ghost use Rattle.run_parts.specs.ReadinessCode.{end_offered, send_of, receive_of, readiness_op, offer_of, offers_nothing, either_way, of_one_channel, meets_op};

use run_store::head::{Head, read_head};
use run_store::values::{Val, empty, get, value};
use run_values::operands::two_empty;
use run_values::steps::{StepResult, is_send};
use table::program::Program;

// What a process can do: it is over or not made; it moves by itself, by a step or a fault; it offers to send a value
// from an end; it offers to receive at one.
#[derive(Clone, Copy)]
pub enum Readiness {
    Idle,
    Moves,
    Sends { end: Val, value: Val },
    Receives { end: Val },
}

impl Readiness {
    // The end of an offer; the empty value where nothing is offered.
    #[tactic(auto, unfolding(crate::specs::ReadinessCode::end_offered))]
    pub fn end(self) -> Val
        ensures { result ≡ end_offered self }
    {
        match self {
            Readiness::Sends { end, .. } => end,
            Readiness::Receives { end } => end,
            _ => empty(),
        }
    }
}

// "off: end, then value above it"; an emptied operand is fault 20, "before waiting".
fn sending(w: &[u32], h: Head) -> Readiness
    ensures { result ≡ send_of w.now h }
{
    if two_empty(w, h) {
        return Readiness::Moves;
    }
    Readiness::Sends {
        end: value(w, h.top(2)),
        value: value(w, h.top(1)),
    }
}

fn receiving(w: &[u32], h: Head) -> Readiness
    ensures { result ≡ receive_of w.now h }
{
    let end = value(w, h.top(1));
    if end.tag == 0 {
        return Readiness::Moves;
    }
    Readiness::Receives { end }
}

// The readiness of the process whose part is w; an offer waits for its partner.
pub fn read_readiness(p: &Program<'_>, w: &[u32]) -> Readiness
    ensures { result ≡ readiness_op p.now w.now }
{
    let h = read_head(w);
    if h.status != 1 {
        return Readiness::Idle;
    }
    let op = p.op(h.place);
    if op == 15 {
        return sending(w, h.wait());
    }
    if op == 16 {
        return receiving(w, h.wait());
    }
    Readiness::Moves
}

// The offer of the process whose part is w, where its step answered that it stands at SEND or RECV.
pub fn read_offer(w: &[u32], step: StepResult) -> Readiness
    ensures { result ≡ offer_of w.now step }
{
    let h = read_head(w);
    if is_send(step) {
        return sending(w, h);
    }
    receiving(w, h)
}

// The instruction that the top frame stands at.
fn place_of(w: &[u32]) -> u32
    ensures { result ≡ (head_of w.now).place }
{
    let frames = get(w, 2);
    get(w, 5 + 4 * (frames as usize))
}

// The process whose part is w runs and stands at neither SEND nor RECV, so that it moves by itself.
pub fn offers_nothing(p: &Program<'_>, w: &[u32]) -> bool
    ensures { result ≡ offers_nothing p.now w.now }
{
    if get(w, 0) != 1 {
        return false;
    }
    let op = p.op(place_of(w));
    (op != 15) & (op != 16)
}

// One is x and the other y.
fn either_way(a: u32, b: u32, x: u32, y: u32) -> bool
    ensures { result ≡ either_way a b x y }
{
    if a == x {
        return b == y;
    }
    (a == y) & (b == x)
}

// The two ends of one channel (tags 5 and 6).
fn of_one_channel(e: Val, f: Val) -> bool
    ensures { result ≡ of_one_channel e f }
{
    if e.number != f.number {
        return false;
    }
    either_way(e.tag, f.tag, 5, 6)
}

// One offers to send and the other to receive, on the two ends of one channel.
#[tactic(auto, unfolding(crate::specs::ReadinessCode::meets_op))]
pub fn meets(a: Readiness, b: Readiness) -> bool
    ensures { result ≡ meets_op a b }
{
    match (a, b) {
        (Readiness::Sends { end, .. }, Readiness::Receives { end: other }) => {
            of_one_channel(end, other)
        }
        (Readiness::Receives { end }, Readiness::Sends { end: other, .. }) => {
            of_one_channel(end, other)
        }
        _ => false,
    }
}
