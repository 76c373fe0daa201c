// The declarations at the start of a block, and the place at which they begin.
ghost use Rattle.std.specs.Prelude.{◌≡◌, ℕ, ◌<◌, get_or, is_ok};
ghost use Rattle.text_types.specs.Answer.{place_at};
ghost use Rattle.text_statements.specs.WithinCode.{DeclarationsEnd};

use text_types::declarations::declarations;
use text_types::place::GrammarError;

// "varDeclaration ::= (oneVarDecl ;)*". No name is looked for.
pub fn past_declarations(text: &[u8], from: usize) -> Result<usize, GrammarError>
    ensures { DeclarationsEnd text.now from (is_ok result) (place_at result) }
{
    let d = declarations(text, from, 0, 0)?;
    Ok(d.at)
}

// The places of the open blocks with that of block n, which opens.
pub fn with_block(mut starts: [usize; 32], n: usize, at: usize) -> [usize; 32]
    ensures { (n < 32 → get_or result n 0 ≡ at) × ((k : ℕ) → k < n → get_or result k 0 ≡ get_or starts k 0) }
{
    if n < 32 {
        starts[n] = at;
    }
    starts
}
