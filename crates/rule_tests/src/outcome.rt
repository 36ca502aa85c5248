// What a rule text is answered, in short: how many rows and how far they look, or the refusal.
ghost use Rattle.std.specs.Prelude.{◌≡◌};
ghost use Rattle.rules.specs.Texts.{answer_of};
ghost use Rattle.rule_tests.specs.Outcomes.{case_outcome};

use rules::fault::RuleFault;
use rules::rule::Rule;
use std::fmt;

#[derive(Clone, Copy, PartialEq, Eq)]
pub(crate) enum Outcome {
    Read { rows: usize, reach: u32 },
    Refused(RuleFault),
}

impl Outcome {
    pub(crate) fn of(answer: &Result<Rule, RuleFault>) -> Outcome
        ensures { result ≡ case_outcome (answer_of answer.now) }
    {
        match answer {
            Ok(rule) => Outcome::Read {
                rows: rule.rows().len(),
                reach: rule.reach(),
            },
            Err(fault) => Outcome::Refused(*fault),
        }
    }
}

impl fmt::Display for Outcome {
    fn fmt<W: fmt::Write>(&self, f: &mut fmt::Formatter<W>) -> fmt::Result {
        match self {
            Outcome::Read { rows, reach } => write!(f, "{rows} rows, reach {reach}"),
            Outcome::Refused(fault) => {
                let number = fault.number();
                let byte = fault.place();
                write!(f, "refused {number} byte {byte}")
            }
        }
    }
}
