// What a giving does within one process's part: to the process that gives, to the one that receives, and to one that
// begins. Each function's contract is an equation on the part's words.
#![tactic(auto)]

ghost use Rattle.std.specs.Prelude.{◌≡◌, ◌+◌, ◌*◌};
ghost use Rattle.run_giving.specs.GivingCode.{thing_given, given_words, sent_words, received_words, began_words, popped_once, popped_by, arguments_popped};

use run_gates::gates::discard_two;
use run_store::giving::{give_away, give_qubit};
use run_store::head::{Head, put_status, put_top, read_head};
use run_store::values::{Val, put};
use run_values::moves::{discard_to, replace};
use table::program::Program;

// "Every slot and every pending value of the giver, in all frames, that holds the thing is emptied."
fn give_thing(w: &mut [u32], v: Val)
    ensures { w.new ≡ thing_given w.old v }
{
    let h = read_head(w);
    give_away(w, v, ((24 * (h.frames as usize)) % 65536) as u16);
}

// The same for a qubit, with one test where all frames are within the part.
fn give_held(w: &mut [u32], v: Val)
    requires { v.tag ≡ 3 }
    ensures { w.new ≡ thing_given w.old v }
{
    if 512 <= w.len() {
        let frames = w[2];
        if frames <= 8 {
            give_qubit(w, v.number, 3 * (frames as u16));
            return;
        }
    }
    give_thing(w, v);
}

// An int or a boolean is no thing.
pub fn give(w: &mut [u32], v: Val)
    ensures { w.new ≡ given_words w.old v }
{
    if v.tag == 3 {
        give_held(w, v);
        return;
    }
    if v.tag < 3 {
        return;
    }
    give_thing(w, v);
}

// The sender's part: its two operands off, and what was sent given away.
pub fn send(w: &mut [u32], v: Val)
    ensures { w.new ≡ sent_words w.old v }
{
    let h = read_head(w);
    discard_two(w, h);
    give(w, v);
}

// The receiver's part: its end off, what was sent on.
pub fn receive(w: &mut [u32], v: Val)
    ensures { w.new ≡ received_words w.old v }
{
    let h = read_head(w);
    replace(w, h, v);
}

// The part of a process that begins in method m: it runs, with one frame.
pub fn begin(p: &Program<'_>, w: &mut [u32], m: u16)
    ensures { w.new ≡ began_words p.now w.old m }
{
    let h = read_head(w).start(m as u32, p.offset(m as u32) as u32);
    put_status(w, h);
    put(w, 8, h.method);
    put_top(w, h);
}

fn pop_once(w: &mut [u32])
    ensures { w.new ≡ popped_once w.old }
{
    let h = read_head(w);
    discard_to(w, h, h.place);
}

fn pop_all(w: &mut [u32], n: u16)
    ensures { w.new ≡ popped_by w.old n }
{
    for _ in 0..n {
        pop_once(w);
    }
}

// The forking process's part: its n arguments off, and the frame after its instruction.
pub fn pop_arguments(w: &mut [u32], n: u16)
    ensures { w.new ≡ arguments_popped w.old n }
{
    pop_all(w, n);
    let h = read_head(w);
    put_top(w, h.step());
}
