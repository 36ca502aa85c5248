// A line of a listing, as a value.
ghost use Rattle.std.specs.Prelude.{◌≡◌, Some};
ghost use Rattle.case_lines.specs.Lines.{refusal_line};
ghost use Rattle.case_lines.specs.LineTexts.{line_shown, line_text};

use crate::lines::OutcomeText;
use cases::fault::CaseRefusal;
use meaning::mark::Mark;
use meaning::outcome::Outcome;
use std::fmt;

/// What a line says. How it is printed ends before the line's end.
#[derive(Clone, Copy)]
pub enum Line {
    // What is refused, by its number, the field that it is about, and the byte of the rule, if it is about the rule.
    Refused {
        number: u8,
        field: usize,
        byte: Option<usize>,
    },
    // A verdict with the two ends of its margin, and how many marks follow.
    Verdict {
        tick: u32,
        outcome: Outcome,
        lower: i32,
        upper: i32,
        marks: usize,
    },
    // A mark of the verdict before it.
    Marked(Mark),
}

impl fmt::Display for Line {
    ghost output = { λ x. Some (line_shown x) };

    fn fmt<W: fmt::Write>(&self, f: &mut fmt::Formatter<W>) -> fmt::Result {
        match *self {
            Line::Refused {
                number,
                field,
                byte: None,
            } => write!(f, "refused {number} field {field}"),
            Line::Refused {
                number,
                field,
                byte: Some(byte),
            } => write!(f, "refused {number} field {field} byte {byte}"),
            Line::Verdict {
                tick,
                outcome,
                lower,
                upper,
                marks,
            } => {
                let outcome = OutcomeText(outcome);
                write!(f, "{tick} {outcome} {lower} {upper} {marks}")
            }
            Line::Marked(Mark { row, first, after }) => write!(f, "{row} {first} {after}"),
        }
    }
}

/// The line that tells why a case is refused.
pub fn refusal_of(refusal: CaseRefusal) -> Line
    ensures { line_text result ≡ refusal_line refusal }
{
    Line::Refused {
        number: refusal.fault.number(),
        field: refusal.field,
        byte: refusal.fault.place(),
    }
}
