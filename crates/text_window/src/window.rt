// What is kept of the brackets that are open around a place. Brackets nest to any depth, and there is no room for all
// of them: of some levels from the level `low` on, `counts` has how many assignments are open within the level, and
// `brackets` whether the bracket over it is a call's.
ghost use Rattle.std.specs.Prelude.{◌≡◌, true, List, ℕ, ◌≤◌, ltb};
ghost use Rattle.text_expr.specs.LevelsCode.{phase_after};
ghost use Rattle.text_effect.specs.EffectCode.{phase_in, effect_in};
ghost use Rattle.text_window.specs.WindowCode.{slot_of, cell, put, counts_after, brackets_after, depth_after, stops_on, Held, innermost_in, asks_level};

use slices::{at_or, put};
use text_effect::effect::is_operator;
use text_effect::phase::{BRACKET, CALL, Effect, NO_BRACKET, Phase};
use text_tokens::kinds::COMMA;

// The cell of level k, or `room` where the level is not kept.
fn slot(room: usize, low: usize, k: usize) -> usize
    ensures { result ≡ slot_of room low k }
{
    if k < low {
        return room;
    }
    if k - low < room {
        return k - low;
    }
    room
}

fn count_at(counts: &[usize], low: usize, k: usize) -> usize
    ensures { result ≡ cell counts.now low k }
{
    at_or(counts, slot(counts.len(), low, k), 0)
}

pub fn put_count(counts: &mut [usize], low: usize, k: usize, v: usize)
    ensures { counts.new ≡ put low k v counts.old }
{
    let i = slot(counts.len(), low, k);
    put(counts, i, v);
}

fn bracket_at(brackets: &[u8], low: usize, k: usize) -> u8
    ensures { result ≡ cell brackets.now low k }
{
    at_or(brackets, slot(brackets.len(), low, k), 0)
}

fn put_bracket(brackets: &mut [u8], low: usize, k: usize, v: u8)
    ensures { brackets.new ≡ put low k v brackets.old }
{
    let i = slot(brackets.len(), low, k);
    put(brackets, i, v);
}

// What an effect makes of the assignments that are open.
pub fn note_counts(counts: &mut [usize], low: usize, depth: usize, e: Effect)
    ensures { counts.new ≡ counts_after low depth e counts.old }
{
    match e {
        Effect::Assigns => {
            let more = count_at(counts, low, depth).saturating_add(1);
            put_count(counts, low, depth, more)
        }
        Effect::Unassigns => {
            let less = count_at(counts, low, depth).saturating_sub(1);
            put_count(counts, low, depth, less)
        }
        Effect::OpensBracket => put_count(counts, low, depth.saturating_add(1), 0),
        Effect::OpensCall => put_count(counts, low, depth.saturating_add(1), 0),
        Effect::NextArgument => put_count(counts, low, depth, 0),
        _ => {}
    }
}

// And of the brackets.
pub fn note_brackets(brackets: &mut [u8], low: usize, depth: usize, e: Effect)
    ensures { brackets.new ≡ brackets_after low depth e brackets.old }
{
    match e {
        Effect::OpensBracket => put_bracket(brackets, low, depth, BRACKET),
        Effect::OpensCall => put_bracket(brackets, low, depth, CALL),
        _ => {}
    }
}

pub fn depth_after(e: Effect, depth: usize) -> usize
    ensures { result ≡ depth_after e depth }
{
    match e {
        Effect::OpensBracket => depth.saturating_add(1),
        Effect::OpensCall => depth.saturating_add(1),
        Effect::Closes => depth.saturating_sub(1),
        _ => depth,
    }
}

pub fn phase_after(e: Effect) -> Phase
    ensures { (text : List ℕ) → phase_in text result ≡ phase_after (effect_in text e) }
{
    match e {
        Effect::Stay(p) => p,
        Effect::OpensCall => Phase::Called,
        Effect::Closes => Phase::Whole,
        _ => Phase::Operand,
    }
}

// The text leaves the grammar, or the expression has ended.
pub fn stops(e: Effect) -> bool
    ensures { result ≡ stops_on e }
{
    match e {
        Effect::Astray(_) => true,
        Effect::Beyond => true,
        _ => false,
    }
}

// An assignment is open within the innermost bracket.
pub fn assigning(counts: &[usize], low: usize, depth: usize) -> bool
    ensures { result ≡ ltb 0 (cell counts.now low depth) }
{
    0 < count_at(counts, low, depth)
}

pub fn innermost(brackets: &[u8], low: usize, depth: usize) -> u8
    ensures { result ≡ innermost_in low depth brackets.now }
{
    if depth == 0 {
        return NO_BRACKET;
    }
    if bracket_at(brackets, low, depth - 1) == CALL {
        return CALL;
    }
    BRACKET
}

// A token of this kind may depend on the levels.
pub fn asks_level(phase: Phase, kind: u8) -> bool
    ensures { result ≡ asks_level phase kind }
{
    match phase {
        Phase::Whole => kind == COMMA,
        Phase::Bare => (kind == COMMA) | is_operator(kind),
        Phase::Named(_, _) => kind == COMMA,
        _ => false,
    }
}

// The levels that it may ask for are kept, where there is room for `room` levels.
pub fn holds(room: usize, low: usize, depth: usize) -> bool
    ensures { result ≡ true → Held room low depth }
{
    if depth == 0 {
        return (low == 0) & (0 < room);
    }
    if depth <= low {
        return false;
    }
    depth - low < room
}

// The first level to keep, so that those levels are kept and as many on either side.
pub fn low_for(room: usize, depth: usize) -> usize
    requires { 2 ≤ room }
    ensures { Held room result depth }
{
    depth.saturating_sub(room / 2)
}
