// How lines of a listing are written.
ghost use Rattle.std.specs.Prelude.{Some};
ghost use Rattle.case_lines.specs.Lines.{outcome_text};

use meaning::outcome::Outcome;
use std::fmt;

// An outcome as it stands on a line. The outcome is another crate's, and how a listing prints it is this crate's.
#[derive(Clone, Copy)]
pub struct OutcomeText(pub Outcome);

impl fmt::Display for OutcomeText {
    ghost output = { λ x. Some (outcome_text x.0) };

    fn fmt<W: fmt::Write>(&self, f: &mut fmt::Formatter<W>) -> fmt::Result {
        match self.0 {
            Outcome::Pass => write!(f, "pass"),
            Outcome::Fail => write!(f, "fail"),
            Outcome::Unsure => write!(f, "unsure"),
        }
    }
}
