// The pass over an expression: one loop over its tokens. Where a token asks for levels that are not kept, the pass goes
// over the expression's tokens once more, from the first on, and keeps others. It does so first with room for few
// levels, where it does not: an expression that needs more is read anew with room for many.
ghost use Rattle.std.specs.Prelude.{◌≡◌, true, suc, ◌≤◌, length, is_ok, is_some, IfSome, unwrap_or};
ghost use Rattle.text.specs.Tree.{Expr};
ghost use Rattle.text_parse.specs.Grammar.{Scopes};
ghost use Rattle.text_parse.specs.Equations.{expr_from};
ghost use Rattle.text_tokens.specs.Places.{tokens_at};
ghost use Rattle.text_types.specs.Answer.{place_at};
ghost use Rattle.text_types.specs.SaysCode.{Says};
ghost use Rattle.text_scopes.specs.OpenCode.{Opened};
ghost use Rattle.text_expr.specs.LevelsCode.{action};
ghost use Rattle.text_effect.specs.EffectCode.{token, KindRight, phase_in, effect_in, bracket_in, EndsKnown};
ghost use Rattle.text_window.specs.WindowCode.{Window};
ghost use Rattle.text_pass.specs.WalkCode.{State, begins, Leads, Standing, Ready, answer_of};

use text_effect::effect::effect_of;
use text_effect::phase::{CALL, Effect, Phase};
use text_scopes::is_withends;
use text_tokens::kinds::{ASSIGN, END};
use text_tokens::next::{TokenAt, next_token};
use text_types::place::GrammarError;
use text_window::window::{
    asks_level, assigning, depth_after, holds, innermost, low_for, note_brackets, note_counts,
    phase_after, put_count, stops,
};

// Whether the name that is read means a channel with ends: asked only at = after it.
fn ends_here(text: &[u8], starts: &[usize; 32], n: usize, phase: Phase, kind: u8) -> bool
    ensures { (scopes : Scopes) → Opened text.now starts.now n scopes → n ≤ 32
        → EndsKnown text.now scopes phase kind result }
{
    match phase {
        Phase::Named(start, end) => {
            if kind == ASSIGN {
                return is_withends(text, starts, n, start, end);
            }
            false
        }
        _ => false,
    }
}

// What a token does.
fn effect_at(
    text: &[u8],
    starts: &[usize; 32],
    n: usize,
    phase: Phase,
    assigning: bool,
    innermost: u8,
    t: TokenAt,
) -> Effect
    ensures { (scopes : Scopes) → Opened text.now starts.now n scopes → n ≤ 32
        → KindRight text.now t
        → effect_in text.now result
        ≡ action scopes (phase_in text.now phase) assigning (bracket_in innermost)
        (token text.now t) }
{
    let ends = ends_here(text, starts, n, phase, t.kind);
    effect_of(text, phase, ends, assigning, innermost, t)
}

// The answer at an effect that stops the pass.
fn answer(e: Effect, at: usize) -> Result<usize, GrammarError>
    ensures { result ≡ answer_of at e }
{
    match e {
        Effect::Astray(i) => Err(GrammarError { at: i }),
        _ => Ok(at),
    }
}

// The tokens from the expression's start up to a place that the pass has come to, once more: up to there what a token
// does needs no knowledge of the levels.
fn replay(
    text: &[u8],
    from: usize,
    until: usize,
    starts: &[usize; 32],
    n: usize,
    low: usize,
    counts: &mut [usize],
    brackets: &mut [u8],
)
    requires { length brackets.old ≡ length counts.old }
    ensures { (scopes : Scopes) → Opened text.now starts.now n scopes → n ≤ 32
        → (s : State) → Leads scopes text.now (begins from) s → s.at ≡ until
        → Window (length counts.old) low (length s.levels) counts.new brackets.new
        s.count s.levels }
{
    put_count(counts, low, 0, 0);
    let mut at = from;
    let mut phase = Phase::Operand;
    let mut depth = 0;
    while at < until {
        let t = next_token(text, at);
        // No place that the pass has come to is beyond the text's end.
        if t.kind == END {
            return;
        }
        let e = effect_at(text, starts, n, phase, true, CALL, t);
        note_counts(counts, low, depth, e);
        note_brackets(brackets, low, depth, e);
        depth = depth_after(e, depth);
        phase = phase_after(e);
        at = t.end;
    }
}

// The first level that is kept, where the levels that a token of this kind asks for are: where they are not, they are
// found again, if that is wanted, and else there is none.
fn ready(
    text: &[u8],
    from: usize,
    at: usize,
    starts: &[usize; 32],
    n: usize,
    phase: Phase,
    kind: u8,
    again: bool,
    low: usize,
    depth: usize,
    counts: &mut [usize],
    brackets: &mut [u8],
) -> Option<usize>
    requires { (length brackets.old ≡ length counts.old) × (2 ≤ length counts.old) }
    ensures { ((scopes : Scopes) → Opened text.now starts.now n scopes → n ≤ 32
        → Standing scopes text.now from at phase (length counts.old) low depth
        counts.old brackets.old
        → Standing scopes text.now from at phase (length counts.old) (unwrap_or result low) depth
        counts.new brackets.new)
        × IfSome result (λ l. Ready phase kind (length counts.old) l depth)
        × (again ≡ true → is_some result ≡ true) }
{
    let room = counts.len();
    if !asks_level(phase, kind) {
        return Some(low);
    }
    if holds(room, low, depth) {
        return Some(low);
    }
    if !again {
        return None;
    }
    let lower = low_for(room, depth);
    replay(text, from, at, starts, n, lower, counts, brackets);
    Some(lower)
}

// The answer for the expression, or none where it asks for levels that are not kept. They are found again if that is
// wanted.
fn walk(
    text: &[u8],
    from: usize,
    starts: &[usize; 32],
    n: usize,
    again: bool,
    counts: &mut [usize],
    brackets: &mut [u8],
) -> Option<Result<usize, GrammarError>>
    requires { (length brackets.old ≡ length counts.old) × (2 ≤ length counts.old) }
    ensures { ((scopes : Scopes) → Opened text.now starts.now n scopes → n ≤ 32
        → IfSome result (λ r. Says text.now (suc from) (λ (e : Expr). Unit {0}) (is_ok r) (place_at r)
        (expr_from scopes (tokens_at text.now from)))) × (again ≡ true → is_some result ≡ true) }
{
    put_count(counts, 0, 0, 0);
    let mut at = from;
    let mut phase = Phase::Operand;
    let mut depth = 0;
    let mut low = 0;
    loop {
        let t = next_token(text, at);
        low = ready(
            text, from, at, starts, n, phase, t.kind, again, low, depth, counts, brackets,
        )?;
        let within = assigning(counts, low, depth);
        let bracket = innermost(brackets, low, depth);
        let e = effect_at(text, starts, n, phase, within, bracket, t);
        // The end of the text stops the pass by itself; that it does is not known here, where no blocks are.
        if stops(e) | (t.kind == END) {
            return Some(answer(e, at));
        }
        note_counts(counts, low, depth, e);
        note_brackets(brackets, low, depth, e);
        depth = depth_after(e, depth);
        phase = phase_after(e);
        at = t.end;
    }
}

// With room for few levels, which is soon made: nearly every expression.
pub fn walk_shallow(
    text: &[u8],
    from: usize,
    starts: &[usize; 32],
    n: usize,
) -> Option<Result<usize, GrammarError>>
    ensures { (scopes : Scopes) → Opened text.now starts.now n scopes → n ≤ 32
        → IfSome result (λ r. Says text.now (suc from) (λ (e : Expr). Unit {0}) (is_ok r) (place_at r)
        (expr_from scopes (tokens_at text.now from))) }
{
    let mut counts = [0usize; 32];
    let mut brackets = [0u8; 32];
    walk(text, from, starts, n, false, &mut counts, &mut brackets)
}

// With room for many, and levels found again.
pub fn walk_deep(
    text: &[u8],
    from: usize,
    starts: &[usize; 32],
    n: usize,
) -> Result<usize, GrammarError>
    ensures { (scopes : Scopes) → Opened text.now starts.now n scopes → n ≤ 32
        → Says text.now (suc from) (λ (e : Expr). Unit {0}) (is_ok result) (place_at result)
        (expr_from scopes (tokens_at text.now from)) }
{
    let mut counts = [0usize; 8192];
    let mut brackets = [0u8; 8192];
    walk(text, from, starts, n, true, &mut counts, &mut brackets).unwrap()
}
