// The rules of types, one function for each op that needs more than one method of Pending.
ghost use Rattle.std.specs.Prelude.{◌≡◌, ◌+◌, ◌<◌};
ghost use Rattle.table.specs.Table.{methods, row, slot_type, return_of};
ghost use Rattle.table.proofs.Accepted.{Sizes};
ghost use Rattle.std.proofs.Math.Option.{some};
ghost use Rattle.check_types.specs.PendingCode.{result_in, types_of, take_off, put_on, bared};
ghost use Rattle.check_types.specs.RulesCode.{stepped, gated, ended, received, sent, passed_to, called, returned_from, RowAt, SlotOf, Ready};

use crate::pending::Pending;
use check_instructions::owner::Owner;
use table::words::word_at;

fn slot_type(p: &[u16], o: Owner, a: usize) -> u64
    requires { SlotOf p.now o a }
    ensures { result ≡ slot_type p.now o.method a }
{
    word_at(p, o.row + 2 + a) as u64
}

// `at` is where the row of method m starts.
fn return_type(p: &[u16], m: usize, at: usize) -> u64
    requires { RowAt p.now m at }
    ensures { (result ≡ return_of p.now m) × (result < 256) }
{
    word_at(p, at) as u64
}

fn get(p: &[u16], o: Owner, a: usize, q: Pending) -> Option<Pending>
    requires { SlotOf p.now o a }
    ensures { result_in result ≡ put_on (slot_type p.now o.method a) (some (types_of q)) }
{
    q.on(slot_type(p, o, a))
}

fn put(p: &[u16], o: Owner, a: usize, q: Pending) -> Option<Pending>
    requires { SlotOf p.now o a }
    ensures { result_in result
        ≡ put_on (slot_type p.now o.method a)
        (take_off (slot_type p.now o.method a) (some (types_of q))) }
{
    let t = slot_type(p, o, a);
    q.one(t, t)
}

fn end(q: Pending) -> Option<Pending>
    ensures { result_in result ≡ ended (some (types_of q)) }
{
    let t = q.top();
    if (17 <= t) & (t <= 19) {
        return q.one(t, t + 16);
    }
    None
}

fn gate(q: Pending, a: usize) -> Option<Pending>
    ensures { result_in result ≡ gated a (some (types_of q)) }
{
    if a <= 5 {
        return q.off(3);
    }
    q.off(3)?.off(3)
}

// The value lies above the end that carries it.
fn send(q: Pending) -> Option<Pending>
    ensures { result_in result ≡ sent (some (types_of q)) }
{
    let t = q.top();
    if (1 <= t) & (t <= 3) {
        return q.off(t)?.off(t + 32)?.bare();
    }
    None
}

fn recv(q: Pending) -> Option<Pending>
    ensures { result_in result ≡ received (some (types_of q)) }
{
    let t = q.top();
    if (33 <= t) & (t <= 35) {
        return q.one(t, t - 32);
    }
    None
}

// The arguments of method m off, the last one first.
fn pass(p: &[u16], m: usize, at: usize, q: Pending) -> Option<Pending>
    requires { RowAt p.now m at }
    ensures { result_in result ≡ passed_to p.now m (some (types_of q)) }
{
    let mut rest = q;
    for s in (0..word_at(p, at + 1)).rev() {
        rest = rest.off(word_at(p, at + 2 + s) as u64)?;
    }
    Some(rest)
}

fn call(p: &[u16], m: usize, at: usize, q: Pending) -> Option<Pending>
    requires { RowAt p.now m at }
    ensures { result_in result ≡ called p.now m (some (types_of q)) }
{
    let rest = pass(p, m, at, q)?;
    let t = return_type(p, m, at);
    if t == 0 {
        return Some(rest);
    }
    rest.on(t)
}

fn ret(p: &[u16], m: usize, at: usize, q: Pending) -> Option<Pending>
    requires { RowAt p.now m at }
    ensures { result_in result ≡ returned_from (return_of p.now m) (some (types_of q)) }
{
    let t = return_type(p, m, at);
    if t == 0 {
        return q.bare();
    }
    q.off(t)?.bare()
}

fn fork(p: &[u16], m: usize, at: usize, q: Pending) -> Option<Pending>
    requires { RowAt p.now m at }
    ensures { result_in result ≡ bared (passed_to p.now m (some (types_of q))) }
{
    pass(p, m, at, q)?.bare()
}

fn new_channel(q: Pending, a: usize) -> Option<Pending>
    requires { a < 4 }
    ensures { result_in result ≡ put_on (16 + a) (some (types_of q)) }
{
    q.on(16 + a as u64)
}

fn jump_on_false(q: Pending) -> Option<Pending>
    ensures { result_in result ≡ bared (take_off 2 (some (types_of q))) }
{
    q.off(2)?.bare()
}

// Where the row of method m starts; `count` is the number of methods.
fn row_of(p: &[u16], count: usize, m: usize) -> usize
    requires { Sizes p.now × (count ≡ methods p.now) × (m < methods p.now) }
    ensures { result ≡ row p.now m }
{
    2 + 2 * count + 18 * m
}

// The pending types after an instruction, or a fault. The check comes here for each instruction of a table: a call would
// hand the answer back through memory.
#[inline(always)]
pub fn step(p: &[u16], count: usize, o: Owner, op: usize, a: usize, q: Pending) -> Option<Pending>
    requires { Ready p.now count o op a }
    ensures { result_in result ≡ stepped p.now o.method op a (types_of q) }
{
    match op {
        1 => q.on(1),
        2 => q.on(2),
        3 => get(p, o, a, q),
        4 => put(p, o, a, q),
        5 => q.dropped(),
        6 => q.bare(),
        7 => q.on(3),
        8 => new_channel(q, a),
        9 => end(q),
        10 => gate(q, a),
        11 => q.one(3, 1),
        12 => call(p, a, row_of(p, count, a), q),
        13 => ret(p, o.method, o.row, q),
        14 => fork(p, a, row_of(p, count, a), q),
        15 => send(q),
        16 => recv(q),
        17 => q.bare(),
        18 => jump_on_false(q),
        19 => q.two(1),
        20 => q.two(1),
        21 => q.two(2),
        22 => q.two(2),
        23 => q.one(2, 2),
        _ => None,
    }
}
