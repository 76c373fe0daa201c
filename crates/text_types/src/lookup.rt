// What the declarations or the parameters that begin at a place say of the name that stands at start up to end: what the
// first that declares it does.
ghost use Rattle.std.specs.Prelude.{◌≡◌, []};
ghost use Rattle.std.proofs.Math.Seq.{slice};
ghost use Rattle.text_parse.specs.Equations.{declarations_from, parameters_rule};
ghost use Rattle.text_tokens.specs.Places.{tokens_at};
ghost use Rattle.text_types.specs.Answer.{declared_number};
ghost use Rattle.text_types.specs.Found.{found_among, found_parameter};

use crate::declarations::declarations;
use crate::found::DeclaredAs;
use crate::parameters::parameters;

pub fn declared_in(text: &[u8], from: usize, start: usize, end: usize) -> Option<DeclaredAs>
    ensures { declared_number result ≡ found_among (slice start end text.now)
        (declarations_from [] (tokens_at text.now from)) }
{
    if text.len() < from {
        return None;
    }
    match declarations(text, from, start, end) {
        Ok(d) => d.found,
        Err(_) => None,
    }
}

pub fn parameter_in(text: &[u8], from: usize, start: usize, end: usize) -> Option<DeclaredAs>
    ensures { declared_number result ≡ found_parameter (slice start end text.now)
        (parameters_rule (tokens_at text.now from)) }
{
    match parameters(text, from, start, end) {
        Ok(p) => p.found,
        Err(_) => None,
    }
}
