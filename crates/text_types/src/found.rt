// A name that must stand at a place, and whether it is the name that is looked for.
ghost use Rattle.std.specs.Prelude.{◌≡◌, is_ok};
ghost use Rattle.std.proofs.Math.Seq.{slice};
ghost use Rattle.text_types.specs.Answer.{name_place, name_found};
ghost use Rattle.text_types.specs.FoundCode.{NameSays};

use crate::place::GrammarError;
use text_tokens::bytes::same_word;
use text_tokens::kinds::NAME;
use text_tokens::next::next_token;

// What a name is declared as.
#[derive(Clone, Copy, Debug, PartialEq, Eq)]
pub enum DeclaredAs {
    Variable,
    // a channel with ends
    WithEnds,
}

// A place, and what is declared up to it of the name that is looked for.
#[derive(Clone, Copy, Debug, PartialEq, Eq)]
pub struct FoundAt {
    pub at: usize,
    pub found: Option<DeclaredAs>,
}

// What stands here is no name; whether it has the bytes that are looked for.
#[derive(Clone, Copy, Debug, PartialEq, Eq)]
pub struct NotAName {
    pub at: usize,
    pub found: Option<DeclaredAs>,
}

impl From<NotAName> for GrammarError {
    ghost from_gives = { λ e r. r ≡ record { at = e.at } };

    fn from(other: NotAName) -> GrammarError {
        GrammarError { at: other.at }
    }
}

// A name must stand here; the one that is looked for stands at start up to end.
pub fn name_here(text: &[u8], from: usize, start: usize, end: usize) -> Result<FoundAt, NotAName>
    ensures { NameSays text.now (slice start end text.now) from (is_ok result) (name_place result)
        (name_found result) }
{
    let t = next_token(text, from);
    let found = same_word(text, start, end, t.start, t.end).then_some(DeclaredAs::Variable);
    if t.kind == NAME {
        Ok(FoundAt { at: t.end, found })
    } else {
        Err(NotAName { at: t.start, found })
    }
}
