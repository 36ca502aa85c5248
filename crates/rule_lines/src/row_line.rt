// How a row is written. Rows are another crate's, so they are wrapped here.
ghost use Rattle.std.specs.Prelude.{Some};
ghost use Rattle.rule_lines.specs.Listing.{side_text, row_text};

use rules::row::{Row, Side};
use std::fmt;

#[derive(Clone, Copy)]
struct SideText(Side);

impl fmt::Display for SideText {
    ghost output = { λ x. Some (side_text x.0) };

    fn fmt<W: fmt::Write>(&self, f: &mut fmt::Formatter<W>) -> fmt::Result {
        match self.0 {
            Side::AtLeast => write!(f, ">="),
            Side::AtMost => write!(f, "<="),
        }
    }
}

// A row as it stands on its line, behind its number.
#[derive(Clone, Copy)]
pub struct RowLine(pub Row);

impl fmt::Display for RowLine {
    ghost output = { λ x. Some (row_text x.0) };

    fn fmt<W: fmt::Write>(&self, f: &mut fmt::Formatter<W>) -> fmt::Result {
        match self.0 {
            Row::Test { line, side, limit } => {
                let side = SideText(side);
                write!(f, "test line {line} {side} {limit}")
            }
            Row::Not { child } => write!(f, "not {child}"),
            Row::And { left, right } => write!(f, "and {left} {right}"),
            Row::Or { left, right } => write!(f, "or {left} {right}"),
            Row::Eventually { from, to, child } => write!(f, "F [{from},{to}] {child}"),
            Row::Always { from, to, child } => write!(f, "G [{from},{to}] {child}"),
            Row::Until {
                from,
                to,
                left,
                right,
            } => write!(f, "until [{from},{to}] {left} {right}"),
        }
    }
}
