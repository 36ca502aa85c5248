// Which lines a rule tests.
ghost use Rattle.std.specs.Prelude.{◌≡◌, ◌↔◌, IsTrue};
ghost use Rattle.std.specs.List.{list_all};
ghost use Rattle.rules.specs.Tested.{SomeTests, TestsOnlyBelow, row_tests, row_below};
ghost use Rattle.rules.specs.Texts.{table_of};

use crate::row::Row;
use crate::rule::Rule;

fn tests(row: Row, line: u8) -> bool
    ensures { result ≡ row_tests row line }
{
    match row {
        Row::Test { line: tested, .. } => line == tested,
        _ => false,
    }
}

fn tests_below(row: Row, lines: usize) -> bool
    ensures { result ≡ row_below row lines }
{
    match row {
        Row::Test { line, .. } => (line as usize) < lines,
        _ => true,
    }
}

fn all_below(rows: &[Row], lines: usize) -> bool
    ensures { result ≡ list_all (λ r. row_below r lines) rows.now }
{
    rows.iter().all(|row| tests_below(*row, lines))
}

impl Rule {
    /// Whether one of the rows tests the line.
    pub fn tests_line(&self, line: u8) -> bool
        ensures { IsTrue result ↔ SomeTests (table_of self.now) line }
    {
        self.rows().iter().any(|row| tests(*row, line))
    }

    /// Whether each line that the rows test is one of the first `lines`.
    pub fn tests_only_below(&self, lines: usize) -> bool
        ensures { IsTrue result ↔ TestsOnlyBelow (table_of self.now) lines }
    {
        all_below(self.rows(), lines)
    }
}
