// The listing of an answer.
ghost use Rattle.std.specs.Prelude.{◌++◌, Some};
ghost use Rattle.std.specs.Fmt.{WritesOnOk};
ghost use Rattle.rules.specs.Texts.{table_of, answer_of};
ghost use Rattle.rule_lines.specs.Listing.{row_line, row_lines, last_line, table_text, refusal_text, listing_of};

use crate::row_line::RowLine;
use rules::fault::RuleFault;
use rules::row::Row;
use rules::rule::Rule;
use std::fmt;

fn write_row<W: fmt::Write>(number: usize, row: Row, f: &mut fmt::Formatter<W>) -> fmt::Result
    ensures { WritesOnOk W.write_str_gives f.old result (row_line number row) f.new }
{
    let row = RowLine(row);
    writeln!(f, "{number} {row}")
}

// A line for each row, with its number.
fn write_rows<W: fmt::Write>(rows: &[Row], f: &mut fmt::Formatter<W>) -> fmt::Result
    ensures { WritesOnOk W.write_str_gives f.old result (row_lines 0 rows.now) f.new }
{
    for (number, row) in rows.iter().enumerate() {
        write_row(number, *row, f)?;
    }
    Ok(())
}

fn write_total<W: fmt::Write>(count: usize, reach: u32, f: &mut fmt::Formatter<W>) -> fmt::Result
    ensures { WritesOnOk W.write_str_gives f.old result (last_line count reach) f.new }
{
    writeln!(f, "{count} rows, reach {reach}")
}

// The rows, and then how many they are and how far they look.
fn write_table<W: fmt::Write>(rule: &Rule, f: &mut fmt::Formatter<W>) -> fmt::Result
    ensures { WritesOnOk W.write_str_gives f.old result (table_text (table_of rule.now)) f.new }
{
    let rows = rule.rows();
    write_rows(rows, f)?;
    write_total(rows.len(), rule.reach(), f)
}

// The number of the refusal and its byte of the text.
fn write_refusal<W: fmt::Write>(fault: RuleFault, f: &mut fmt::Formatter<W>) -> fmt::Result
    ensures { WritesOnOk W.write_str_gives f.old result (refusal_text fault) f.new }
{
    let number = fault.number();
    let place = fault.place();
    writeln!(f, "refused {number} byte {place}")
}

// What is printed of an answer.
#[derive(Clone, Copy)]
pub struct Listing(pub Result<Rule, RuleFault>);

impl fmt::Display for Listing {
    ghost output = { λ x. Some (listing_of (answer_of x.0)) };

    fn fmt<W: fmt::Write>(&self, f: &mut fmt::Formatter<W>) -> fmt::Result {
        match &self.0 {
            Ok(rule) => write_table(rule, f),
            Err(fault) => write_refusal(*fault, f),
        }
    }
}
