// What a token does within an expression, by its kind.
ghost use Rattle.std.specs.Prelude.{◌≡◌, Bool, List, ℕ};
ghost use Rattle.text_parse.specs.Grammar.{Scopes};
ghost use Rattle.std.proofs.Math.Option.{Option};
ghost use Rattle.text_expr.specs.LevelsCode.{ended_action, whole_action, operand_action, named_action, must_action, alloc_action, action};
ghost use Rattle.text_effect.specs.EffectCode.{token, name_at, KindRight, phase_in, effect_in, bracket_in, EndsKnown, operator_kind};
ghost use Rattle.text_effect.specs.declared.phase.Phase.TheVariants.{Bare, Named, Called, Recv1, New3};

use crate::phase::{CALL, Effect, NO_BRACKET, Phase};
use text_tokens::kind::is_std_basis;
use text_tokens::kinds::{
    ASSIGN, BOOLEAN, CHANNEL, CHANNEL_END, CLOSE, CLOSE_BRACKET, COMMA, EQUALS, FALSE, INT, LESS,
    MEASURE, MINUS, NAME, NEW, NUMBER, OPEN, OPEN_BRACKET, PLUS, QBIT, RECV, TRUE,
};
use text_tokens::next::TokenAt;

// "op ::= +, -", ==, <
pub fn is_operator(kind: u8) -> bool
    ensures { result ≡ operator_kind kind }
{
    (kind == PLUS) | ((kind == MINUS) | ((kind == EQUALS) | (kind == LESS)))
}

// An operand is to come.
fn operand_effect(t: TokenAt) -> Effect
    ensures { (text : List ℕ) → KindRight text t → effect_in text result ≡ operand_action (token text t) }
{
    let kind = t.kind;
    if kind == NEW {
        return Effect::Stay(Phase::New1);
    }
    if (kind == NUMBER) | ((kind == TRUE) | (kind == FALSE)) {
        return Effect::Stay(Phase::Whole);
    }
    if kind == OPEN {
        return Effect::OpensBracket;
    }
    if kind == RECV {
        return Effect::Stay(Phase::Recv1);
    }
    if kind == MEASURE {
        return Effect::Stay(Phase::Measure1);
    }
    if kind == NAME {
        return Effect::Stay(Phase::Named(t.start, t.end));
    }
    Effect::Astray(t.start)
}

// A token after an expression, within the innermost bracket.
fn ended_effect(innermost: u8, t: TokenAt) -> Effect
    ensures { (text : List ℕ) → KindRight text t
        → effect_in text result ≡ ended_action (bracket_in innermost) (token text t) }
{
    if innermost == NO_BRACKET {
        return Effect::Beyond;
    }
    if t.kind == CLOSE {
        return Effect::Closes;
    }
    if (innermost == CALL) & (t.kind == COMMA) {
        return Effect::NextArgument;
    }
    Effect::Astray(t.start)
}

// An operand is read: an operator, or the end.
fn whole_effect(innermost: u8, t: TokenAt) -> Effect
    ensures { (text : List ℕ) → KindRight text t
        → effect_in text result ≡ whole_action (bracket_in innermost) (token text t) }
{
    if is_operator(t.kind) {
        return Effect::Stay(Phase::Operand);
    }
    ended_effect(innermost, t)
}

// new T() is read: an operator ends the assignment that is open innermost.
fn bare_effect(assigning: bool, innermost: u8, t: TokenAt) -> Effect
    ensures { (text : List ℕ) (scopes : Scopes) → KindRight text t
        → effect_in text result ≡ action scopes (phase_in text Bare) assigning (bracket_in innermost) (token text t) }
{
    if !is_operator(t.kind) {
        return ended_effect(innermost, t);
    }
    if assigning {
        return Effect::Unassigns;
    }
    if innermost == NO_BRACKET {
        return Effect::Beyond;
    }
    Effect::Astray(t.start)
}

// The name from start up to end is read; `withends` says whether it means a channel with ends.
fn named_effect(start: usize, end: usize, withends: bool, innermost: u8, t: TokenAt) -> Effect
    ensures { (text : List ℕ) (scopes : Scopes) → KindRight text t
        → EndsKnown text scopes (Named start end) t.kind withends
        → effect_in text result ≡ named_action scopes (name_at text start end) (bracket_in innermost) (token text t) }
{
    if t.kind == ASSIGN {
        if withends {
            return Effect::Astray(start);
        }
        return Effect::Assigns;
    }
    if t.kind == OPEN {
        return Effect::OpensCall;
    }
    whole_effect(innermost, t)
}

// The bracket of a call is read: its end, or an argument.
fn called_effect(t: TokenAt) -> Effect
    ensures { (text : List ℕ) (scopes : Scopes) (a : Bool) (b : Option Bool) → KindRight text t
        → effect_in text result ≡ action scopes (phase_in text Called) a b (token text t) }
{
    if t.kind == CLOSE {
        return Effect::Closes;
    }
    operand_effect(t)
}

fn recv_effect(t: TokenAt) -> Effect
    ensures { (text : List ℕ) (scopes : Scopes) (a : Bool) (b : Option Bool) → KindRight text t
        → effect_in text result ≡ action scopes (phase_in text Recv1) a b (token text t) }
{
    if t.kind == OPEN {
        return Effect::OpensBracket;
    }
    Effect::Astray(t.start)
}

// A token that must stand here.
fn must_effect(ok: bool, p: Phase, t: TokenAt) -> Effect
    ensures { (text : List ℕ) → effect_in text result ≡ must_action ok (phase_in text p) (token text t) }
{
    if ok {
        return Effect::Stay(p);
    }
    Effect::Astray(t.start)
}

// The type after new.
fn alloc_effect(t: TokenAt) -> Effect
    ensures { (text : List ℕ) → KindRight text t → effect_in text result ≡ alloc_action (token text t) }
{
    let kind = t.kind;
    if kind == QBIT {
        return Effect::Stay(Phase::New5);
    }
    if (kind == CHANNEL) | (kind == CHANNEL_END) {
        return Effect::Stay(Phase::New2);
    }
    Effect::Astray(t.start)
}

// The type that a channel carries.
fn carried_effect(t: TokenAt) -> Effect
    ensures { (text : List ℕ) (scopes : Scopes) (a : Bool) (b : Option Bool) → KindRight text t
        → effect_in text result ≡ action scopes (phase_in text New3) a b (token text t) }
{
    let kind = t.kind;
    must_effect(
        (kind == INT) | ((kind == BOOLEAN) | (kind == QBIT)),
        Phase::New4,
        t,
    )
}

// Every phase. An assignment is open within the innermost bracket or not.
pub fn effect_of(
    text: &[u8],
    phase: Phase,
    withends: bool,
    assigning: bool,
    innermost: u8,
    t: TokenAt,
) -> Effect
    ensures { (scopes : Scopes) → KindRight text.now t
        → EndsKnown text.now scopes phase t.kind withends
        → effect_in text.now result
        ≡ action scopes (phase_in text.now phase) assigning (bracket_in innermost)
        (token text.now t) }
{
    let kind = t.kind;
    match phase {
        Phase::Operand => operand_effect(t),
        Phase::Whole => whole_effect(innermost, t),
        Phase::Bare => bare_effect(assigning, innermost, t),
        Phase::Named(start, end) => named_effect(start, end, withends, innermost, t),
        Phase::Called => called_effect(t),
        Phase::Recv1 => recv_effect(t),
        Phase::Measure1 => must_effect(kind == OPEN, Phase::Measure2, t),
        Phase::Measure2 => must_effect(is_std_basis(text, t.start, t.end), Phase::Measure3, t),
        Phase::Measure3 => must_effect(kind == COMMA, Phase::Measure4, t),
        Phase::Measure4 => must_effect(kind == NAME, Phase::Measure5, t),
        Phase::Measure5 => must_effect(kind == CLOSE, Phase::Whole, t),
        Phase::New1 => alloc_effect(t),
        Phase::New2 => must_effect(kind == OPEN_BRACKET, Phase::New3, t),
        Phase::New3 => carried_effect(t),
        Phase::New4 => must_effect(kind == CLOSE_BRACKET, Phase::New5, t),
        Phase::New5 => must_effect(kind == OPEN, Phase::New6, t),
        Phase::New6 => must_effect(kind == CLOSE, Phase::Bare, t),
    }
}
