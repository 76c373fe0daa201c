// Where a LanQ text leaves the grammar or the nesting (refusal 30).
ghost use Rattle.std.specs.Prelude.{◌≡◌, length, is_ok};
ghost use Rattle.text_parse.specs.Tokens.{tokens_of};
ghost use Rattle.text_parse.specs.Grammar.{program_of};
ghost use Rattle.text_types.specs.Answer.{place_at};
ghost use Rattle.text_program.specs.ProgramCode.{is_read, end_place};

use crate::method::method;
use text_tokens::kinds::END;
use text_types::place::{GrammarError, next_kind};

// "program ::= method+", up to the token that ends the text. Where ok, the whole text is read, and the place is its
// length; else it is where the text leaves the grammar.
pub fn grammar_place(text: &[u8]) -> Result<usize, GrammarError>
    ensures { (is_ok result ≡ is_read (program_of (tokens_of text.now)))
        × (place_at result ≡ end_place (length text.now) (program_of (tokens_of text.now))) }
{
    let mut at = 0;
    loop {
        at = method(text, at)?;
        if next_kind(text, at) == END {
            return Ok(text.len());
        }
    }
}
