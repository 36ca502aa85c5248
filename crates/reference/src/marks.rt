// At which ticks a verdict waits for a test row.
ghost use Rattle.grades.specs.Kinds.{Tells};
ghost use Rattle.reference.specs.Tables.{Waits};

use crate::values::Values;
use crate::wants::Wants;
use rules::row::Row;

// Whether the row is a test that is wanted at t and not settled there.
pub fn marked(rows: &[Row], values: &Values, wants: &Wants, row: usize, t: usize) -> bool
    ensures { Tells result (Waits rows.now values.now wants.now row t) }
{
    matches!(rows.get(row), Some(Row::Test { .. }))
        && wants.at(row, t)
        && !values.at(row, t).settled()
}
