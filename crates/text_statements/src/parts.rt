// The condition of an if and a while.
ghost use Rattle.std.specs.Prelude.{is_ok};
ghost use Rattle.text_parse.specs.Equations.{condition_rule};
ghost use Rattle.text_types.specs.Answer.{place_at};
ghost use Rattle.text_statements.specs.WithinCode.{Within};

use text_pass::expression::expression;
use text_tokens::kinds::{CLOSE, OPEN};
use text_types::place::{GrammarError, expect};

// "( expr )"
pub fn condition(
    text: &[u8],
    from: usize,
    starts: &[usize; 32],
    n: usize,
) -> Result<usize, GrammarError>
    ensures { Within text.now starts.now n from condition_rule (is_ok result) (place_at result) }
{
    let open = expect(text, from, OPEN)?;
    let e = expression(text, open, starts, n)?;
    expect(text, e, CLOSE)
}
