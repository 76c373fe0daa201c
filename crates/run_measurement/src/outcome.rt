// The next outcome of the list that was supplied.
ghost use Rattle.std.specs.Prelude.{◌≡◌};
ghost use Rattle.run_measurement.specs.Outcome.{outcome_number, outcome_no};
ghost use Rattle.run_measurement.specs.MeasurementCode.{clipped, next_in};

// "The next-outcome routine promises 0, 1 or 2, and all that use it follow."
#[derive(Clone, Copy, PartialEq, Eq)]
pub enum Outcome {
    Zero,
    One,
    NoClick,
}

impl Outcome {
    // The outcome as a line has it.
    pub fn number(self) -> u8
        ensures { result ≡ outcome_number self }
    {
        match self {
            Outcome::Zero => 0,
            Outcome::One => 1,
            Outcome::NoClick => 2,
        }
    }
}

fn outcome_of(byte: u8) -> Outcome
    ensures { outcome_number result ≡ clipped byte }
{
    match byte {
        0 => Outcome::Zero,
        1 => Outcome::One,
        _ => Outcome::NoClick,
    }
}

// The outcome after the first `used`, if one is left. Question 6 leaves no byte above 2.
pub fn next_outcome(outcomes: &[u8], used: usize) -> Option<Outcome>
    ensures { outcome_no result ≡ next_in outcomes.now used }
{
    if used < outcomes.len() {
        Some(outcome_of(outcomes[used]))
    } else {
        None
    }
}
