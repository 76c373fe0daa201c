// A measurement, after measure.
ghost use Rattle.std.specs.Prelude.{suc, is_ok};
ghost use Rattle.text.specs.Tree.{Name};
ghost use Rattle.text_parse.specs.Grammar.{measured_name};
ghost use Rattle.text_tokens.specs.Places.{tokens_at};
ghost use Rattle.text_types.specs.Answer.{place_at};
ghost use Rattle.text_types.specs.SaysCode.{Says};
ghost use Rattle.text_pass.specs.BasisCode.{BasisHere};

use text_tokens::kind::is_std_basis;
use text_tokens::kinds::{CLOSE, COMMA, NAME, OPEN};
use text_tokens::next::next_token;
use text_types::place::{GrammarError, expect};

// "measure takes StdBasis": the name must stand here.
fn basis_here(text: &[u8], from: usize) -> Result<usize, GrammarError>
    ensures { BasisHere text.now from (is_ok result) (place_at result) }
{
    let t = next_token(text, from);
    if is_std_basis(text, t.start, t.end) {
        Ok(t.end)
    } else {
        Err(GrammarError { at: t.start })
    }
}

// "measurement ::= measure (basisName (, variableName)+)", with StdBasis and one name.
pub fn measured_name(text: &[u8], from: usize) -> Result<usize, GrammarError>
    ensures { Says text.now (suc from) (λ (q : Name). Unit {0}) (is_ok result) (place_at result)
        (measured_name (tokens_at text.now from)) }
{
    let open = expect(text, from, OPEN)?;
    let basis = basis_here(text, open)?;
    let comma = expect(text, basis, COMMA)?;
    let name = expect(text, comma, NAME)?;
    expect(text, name, CLOSE)
}
