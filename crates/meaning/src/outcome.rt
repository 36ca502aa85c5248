// What a verdict in truth comes to.
ghost use Rattle.std.specs.Prelude.{◌≡◌};
ghost use Rattle.grades.specs.Truths.{truths};
ghost use Rattle.grades.specs.Worth.{worth, truth_value};
ghost use Rattle.meaning.specs.Outcomes.{outcome_at};

use grades::range::Range;
use grades::truth::Truth;

#[derive(Clone, Copy, PartialEq, Eq)]
pub enum Outcome {
    Pass,
    Fail,
    Unsure,
}

impl Outcome {
    /// Pass if the verdict is settled true, fail if it is settled false, and else unsure.
    pub fn of(verdict: Range<Truth>) -> Outcome
        ensures { result ≡ outcome_at (worth truths truth_value verdict) }
    {
        match (verdict.lower.holds, verdict.upper.holds) {
            (true, true) => Outcome::Pass,
            (false, false) => Outcome::Fail,
            _ => Outcome::Unsure,
        }
    }
}
