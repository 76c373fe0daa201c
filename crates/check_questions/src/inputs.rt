// Question 6.
ghost use Rattle.std.specs.Prelude.{◌≡◌, position, nat_lt};

// The first outcome byte that is neither 0, 1 nor 2, if there is one.
pub fn first_outcome(outcomes: &[u8]) -> Option<usize>
    ensures { result ≡ position (λ x. nat_lt 2 x) outcomes.now }
{
    outcomes.iter().position(|outcome| 2 < *outcome)
}
