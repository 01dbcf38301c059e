// Verdicts on a proposed order, and what a linearization is: definitions and laws. The judge itself is the crate `judge`.
#![tactic(auto)]

ghost use Rattle.std.specs.Prelude.{◌≡◌};
ghost use Rattle.linear.specs.Numbers.{verdict_number};

// What the judge says of an order: that it is a linearization, or the first fault of the whole order.
#[derive(Clone, Copy, Debug, PartialEq, Eq)]
pub enum Verdict {
    Linear,
    NoOperation,
    Uncalled,
    Missing,
    Turned,
    Unplayable,
}

impl Verdict {
    // The document's number of a verdict.
    pub fn number(self) -> u8
        ensures { result ≡ verdict_number self }
    {
        match self {
            Verdict::Linear => 0,
            Verdict::NoOperation => 20,
            Verdict::Uncalled => 21,
            Verdict::Missing => 22,
            Verdict::Turned => 23,
            Verdict::Unplayable => 24,
        }
    }
}
