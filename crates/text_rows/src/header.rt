// "methodHeader ::= type methodName ( methodDeclParamList? )"
ghost use Rattle.std.specs.Prelude.{◌≡◌, List};
ghost use Rattle.text.specs.Tree.{Method};
ghost use Rattle.text_parse.specs.Tokens.{Token};
ghost use Rattle.text_parse.specs.Grammar.{read};
ghost use Rattle.text_parse.specs.Equations.{method_from};
ghost use Rattle.text_tokens.specs.Places.{tokens_at};
ghost use Rattle.text_rows.specs.Header.{header_words};

use crate::parameters::parameter_types;
use text_tokens::kinds::{NAME, OPEN};
use text_types::place::expect;
use text_types::types::return_type;

// The row of the method whose header begins at a place.
pub fn header_row(text: &[u8], at: usize) -> [u16; 18]
    ensures { (m : Method) (us : List Token) → method_from (tokens_at text.now at) ≡ read m us
        → result ≡ header_words m }
{
    let mut row = [0u16; 18];
    let Ok(t) = return_type(text, at) else {
        return row;
    };
    row[0] = t.code as u16;
    let Ok(name) = expect(text, t.at, NAME) else {
        return row;
    };
    let Ok(open) = expect(text, name, OPEN) else {
        return row;
    };
    parameter_types(text, open, &mut row);
    row
}
