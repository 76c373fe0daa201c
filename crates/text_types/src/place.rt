// The place up to which a text is read, or at which it leaves the grammar; and the tokens that must stand there.
ghost use Rattle.std.specs.Prelude.{◌≡◌, is_ok};
ghost use Rattle.text_types.specs.Answer.{place_at};
ghost use Rattle.text_types.specs.SaysCode.{next_kind, Expected};

use text_tokens::next::next_token;
use text_tokens::reader::here;

// The text leaves the grammar at this place.
#[derive(Clone, Copy, Debug, PartialEq, Eq)]
pub struct GrammarError {
    pub at: usize,
}

// The kind of the next token.
pub fn next_kind(text: &[u8], from: usize) -> u8
    ensures { result ≡ next_kind text.now from }
{
    let t = here(text, from);
    t.kind
}

// A token of this kind must stand here: the place after it.
pub fn expect(text: &[u8], from: usize, kind: u8) -> Result<usize, GrammarError>
    ensures { Expected text.now from kind (is_ok result) (place_at result) }
{
    let t = next_token(text, from);
    if t.kind == kind {
        Ok(t.end)
    } else {
        Err(GrammarError { at: t.start })
    }
}
